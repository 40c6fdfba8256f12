//! Infos and maps that name no member: texts that fit and texts that do not, and what the constructors answer.
use bidi_params::{EmptyParams, EmptyResult, GetTreeResult, Info};
use bidi_tree::Members;
use std::alloc::Global;
use std::test::Fail;
use testing::rows::{Asked, check_rows};
use testing::texts::{again, members_of, owned, told, value_of};

/// What a text reads as, by the name of a type.
struct Infos;

impl Asked for Infos {
    fn found(alloc: Global, word: &str, text: &str) -> Result<String, Fail> {
        match word {
            "Info" => again::<Info>(alloc, text),
            "GetTreeResult" => again::<GetTreeResult>(alloc, text),
            "EmptyParams" => again::<EmptyParams>(alloc, text),
            "EmptyResult" => again::<EmptyResult>(alloc, text),
            _ => Err(Fail::from("no such type")),
        }
    }
}

const TEXTS: &str = r#"
Info {"children":null,"clientWindow":"w","context":"c","originalOpener":null,"url":"u","userContext":"default"} -> same
Info {"children":[],"clientWindow":"w","context":"c","originalOpener":"o","parent":null,"url":"u","userContext":"default"} -> same
Info {"children":[],"clientWindow":"w","context":"c","originalOpener":null,"parent":"p","url":"u","userContext":"default","x":[1]} -> same
no children | Info {"clientWindow":"w","context":"c","originalOpener":null,"url":"u","userContext":"default"} -> NoFit
Info {"children":{},"clientWindow":"w","context":"c","originalOpener":null,"url":"u","userContext":"default"} -> NoFit
Info {"children":[null],"clientWindow":"w","context":"c","originalOpener":null,"url":"u","userContext":"default"} -> NoFit
Info {"children":[],"clientWindow":"w","context":"c","originalOpener":null,"parent":1,"url":"u","userContext":"default"} -> NoFit
Info {"children":[],"clientWindow":null,"context":"c","originalOpener":null,"url":"u","userContext":"default"} -> NoFit
Info {"children":[],"clientWindow":"w","context":"c","url":"u","userContext":"default"} -> NoFit
Info {"children":[],"clientWindow":"w","context":"c","originalOpener":null,"url":"u","userContext":"default","x":1.5} -> NoFit
Info [] -> NoFit
Info {"children":null,"clientWindow":"w","context":"c","originalOpener":null,"url":"u","userContext":"default"} -> same
Info {"children":«1 [{"children":»[]«1 ,"clientWindow":"w","context":"c","originalOpener":null,"url":"u","userContext":"default"}]»,"clientWindow":"w","context":"c","originalOpener":null,"url":"u","userContext":"default"} -> same
Info {"children":«29 [{"children":»[]«29 ,"clientWindow":"w","context":"c","originalOpener":null,"url":"u","userContext":"default"}]»,"clientWindow":"w","context":"c","originalOpener":null,"url":"u","userContext":"default"} -> same
Info {"children":«30 [{"children":»null«30 ,"clientWindow":"w","context":"c","originalOpener":null,"url":"u","userContext":"default"}]»,"clientWindow":"w","context":"c","originalOpener":null,"url":"u","userContext":"default"} -> NoFit
Info {"children":«30 [{"children":»[]«30 ,"clientWindow":"w","context":"c","originalOpener":null,"url":"u","userContext":"default"}]»,"clientWindow":"w","context":"c","originalOpener":null,"url":"u","userContext":"default"} -> NoFit
GetTreeResult {"contexts":[]} -> same
GetTreeResult {"x":1,"contexts":[]} -> {"contexts":[],"x":1}
GetTreeResult {"contexts":[{"children":[],"clientWindow":"w","context":"c","originalOpener":null,"parent":null,"url":"u","userContext":"default"}]} -> same
GetTreeResult {"contexts":null} -> NoFit
GetTreeResult {"contexts":[{}]} -> NoFit
GetTreeResult {} -> NoFit
EmptyParams {} -> same
EmptyParams {"x":[null]} -> same
EmptyParams {"x":1.5} -> NoFit
EmptyParams [] -> NoFit
EmptyResult {} -> same
EmptyResult {"x":[null]} -> same
EmptyResult {"x":1.5} -> NoFit
EmptyResult [] -> NoFit
"#;

#[test]
fn texts_fit_or_not(rt: HostRuntime) -> Result<(), Fail> {
    check_rows::<Infos>(rt.alloc(), TEXTS)
}

/// What becomes of the same parts with further members, by the name of a type; what becomes of children.
struct InfosMade;

impl Asked for InfosMade {
    fn found(alloc: Global, word: &str, text: &str) -> Result<String, Fail> {
        match word {
            "children" => info_of(alloc, text),
            _ => made_with(alloc, word, members_of(alloc, text)?),
        }
    }
}

const MADE: &str = r#"
EmptyParams {"x":1} -> same
EmptyParams {"x":1.5} -> TooDeep
EmptyResult {"x":1} -> same
EmptyResult {"x":1.5} -> TooDeep
GetTreeResult {} -> {"contexts":[]}
GetTreeResult {"x":1} -> {"contexts":[],"x":1}
GetTreeResult {"contexts":[]} -> Clash
GetTreeResult {"x":1.5} -> TooDeep
Info {} -> {"children":null,"clientWindow":"w","context":"c","originalOpener":"o","parent":null,"url":"u","userContext":"default"}
Info {"x":[1]} -> {"children":null,"clientWindow":"w","context":"c","originalOpener":"o","parent":null,"url":"u","userContext":"default","x":[1]}
Info {"children":null} -> Clash
Info {"clientWindow":"w"} -> Clash
Info {"context":"c"} -> Clash
Info {"originalOpener":null} -> Clash
Info {"url":5} -> Clash
Info {"userContext":"default"} -> Clash
Info {"parent":"p","x":1.5} -> Clash
Info {"x":-0} -> TooDeep
EmptyParams {"x":«60 [»«60 ]»} -> same
EmptyParams {"x":«61 [»«61 ]»} -> TooDeep
EmptyResult {"x":«60 [»«60 ]»} -> same
EmptyResult {"x":«61 [»«61 ]»} -> TooDeep
GetTreeResult {"x":«60 [»«60 ]»} -> {"contexts":[],"x":«60 [»«60 ]»}
GetTreeResult {"x":«61 [»«61 ]»} -> TooDeep
Info {"x":«59 [»«59 ]»} -> {"children":null,"clientWindow":"w","context":"c","originalOpener":"o","parent":null,"url":"u","userContext":"default","x":«59 [»«59 ]»}
Info {"x":«60 [»«60 ]»} -> TooDeep
children «29 [{"children":»[]«29 ,"clientWindow":"w","context":"c","originalOpener":null,"url":"u","userContext":"default"}]» -> {"children":«29 [{"children":»[]«29 ,"clientWindow":"w","context":"c","originalOpener":null,"url":"u","userContext":"default"}]»,"clientWindow":"w","context":"c","originalOpener":null,"url":"u","userContext":"default"}
children «30 [{"children":»null«30 ,"clientWindow":"w","context":"c","originalOpener":null,"url":"u","userContext":"default"}]» -> TooDeep
"#;

#[test]
fn made_with_further_members(rt: HostRuntime) -> Result<(), Fail> {
    check_rows::<InfosMade>(rt.alloc(), MADE)
}

fn made_with(alloc: Global, word: &str, ext: Members) -> Result<String, Fail> {
    match word {
        "Info" => top_with(alloc, ext),
        "GetTreeResult" => told(alloc, GetTreeResult::new(value_of(alloc, "[]")?, ext)),
        "EmptyParams" => told(alloc, EmptyParams::new(ext)),
        "EmptyResult" => told(alloc, EmptyResult::new(ext)),
        _ => Err(Fail::from("no such type")),
    }
}

/// What becomes of an Info at the top with these further members: the compact text, or the fault.
fn top_with(alloc: Global, ext: Members) -> Result<String, Fail> {
    let window = owned(alloc, "w")?;
    let context = owned(alloc, "c")?;
    let opener = Some(owned(alloc, "o")?);
    let url = owned(alloc, "u")?;
    let user = owned(alloc, "default")?;
    let made = Info::new(
        alloc,
        None,
        window,
        context,
        opener,
        url,
        user,
        Some(None),
        ext,
    );
    told(alloc, made)
}

/// What becomes of an Info with these children: the compact text, or the fault.
fn info_of(alloc: Global, children: &str) -> Result<String, Fail> {
    let children = Some(value_of(alloc, children)?);
    let window = owned(alloc, "w")?;
    let context = owned(alloc, "c")?;
    let url = owned(alloc, "u")?;
    let user = owned(alloc, "default")?;
    let ext = Members::new(alloc);
    let made = Info::new(alloc, children, window, context, None, url, user, None, ext);
    told(alloc, made)
}
