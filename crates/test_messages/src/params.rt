//! Scripts: texts that fit and texts that do not, and what the constructors answer.
use bidi_scripts::{
    CallFunctionParameters, DisownParameters, EvaluateParameters, GetRealmsParameters,
    GetRealmsResult, Ownership, RealmDestroyedParameters, RealmInfo, RealmType,
    SerializationOptions, Target,
};
use bidi_tree::{JsUint, Members, Tree};
use std::alloc::Global;
use std::test::Fail;
use testing::rows::{Asked, check_rows};
use testing::texts::{again, members_of, owned, told, value_of, variant_of, written};

/// What a text reads as, by the name of a type.
struct Script;

impl Asked for Script {
    fn found(alloc: Global, word: &str, text: &str) -> Result<String, Fail> {
        match word {
            "Ownership" => again::<Ownership>(alloc, text),
            "RealmType" => again::<RealmType>(alloc, text),
            "SerializationOptions" => again::<SerializationOptions>(alloc, text),
            "EvaluateParameters" => again::<EvaluateParameters>(alloc, text),
            "CallFunctionParameters" => again::<CallFunctionParameters>(alloc, text),
            "DisownParameters" => again::<DisownParameters>(alloc, text),
            "GetRealmsParameters" => again::<GetRealmsParameters>(alloc, text),
            "RealmInfo" => again::<RealmInfo>(alloc, text),
            "GetRealmsResult" => again::<GetRealmsResult>(alloc, text),
            "RealmDestroyedParameters" => again::<RealmDestroyedParameters>(alloc, text),
            "variant-of-Ownership" => variant_of::<Ownership>(alloc, text),
            "variant-of-RealmType" => variant_of::<RealmType>(alloc, text),
            "is-in-context" => is_in_context(alloc, text),
            "further-of-RealmDestroyedParameters" => further(alloc, text),
            _ => Err(Fail::from("no such type")),
        }
    }
}

const TEXTS: &str = r#"
Ownership "root" -> same
Ownership "none" -> same
RealmType "window" -> same
RealmType "dedicated-worker" -> same
RealmType "shared-worker" -> same
RealmType "service-worker" -> same
RealmType "worker" -> same
RealmType "paint-worklet" -> same
RealmType "audio-worklet" -> same
RealmType "worklet" -> same
SerializationOptions {} -> same
SerializationOptions {"maxObjectDepth":0} -> same
SerializationOptions {"maxObjectDepth":9007199254740991} -> same
SerializationOptions {"maxObjectDepth":null} -> same
further members, of whatever kind | SerializationOptions {"x":[1],"maxObjectDepth":1,"maxDomDepth":"a","includeShadowTree":null} -> {"includeShadowTree":null,"maxDomDepth":"a","maxObjectDepth":1,"x":[1]}
another name | SerializationOptions {"maxobjectdepth":"1"} -> same
EvaluateParameters {"target":{"context":"c1"},"expression":"1","awaitPromise":false} -> {"awaitPromise":false,"expression":"1","target":{"context":"c1"}}
EvaluateParameters {"x":1,"userActivation":true,"target":{"realm":"r1"},"resultOwnership":"root","expression":"1","awaitPromise":true} -> {"awaitPromise":true,"expression":"1","resultOwnership":"root","target":{"realm":"r1"},"userActivation":true,"x":1}
EvaluateParameters {"target":{"context":"c1"},"serializationOptions":{"maxObjectDepth":1},"expression":"1","awaitPromise":false} -> {"awaitPromise":false,"expression":"1","serializationOptions":{"maxObjectDepth":1},"target":{"context":"c1"}}
EvaluateParameters {"x":1,"userActivation":true,"target":{"realm":"r1"},"serializationOptions":{"y":2,"maxObjectDepth":null},"resultOwnership":"root","expression":"1","awaitPromise":true} -> {"awaitPromise":true,"expression":"1","resultOwnership":"root","serializationOptions":{"maxObjectDepth":null,"y":2},"target":{"realm":"r1"},"userActivation":true,"x":1}
CallFunctionParameters {"target":{"context":"c1"},"functionDeclaration":"f","awaitPromise":false} -> {"awaitPromise":false,"functionDeclaration":"f","target":{"context":"c1"}}
CallFunctionParameters {"target":{"context":"c1"},"functionDeclaration":"f","awaitPromise":false,"arguments":[]} -> {"arguments":[],"awaitPromise":false,"functionDeclaration":"f","target":{"context":"c1"}}
CallFunctionParameters {"userActivation":false,"this":{"type":"null"},"target":{"realm":"r1"},"resultOwnership":"none","functionDeclaration":"f","awaitPromise":true,"arguments":[{"type":"undefined"},{"handle":"h1"}]} -> {"arguments":[{"type":"undefined"},{"handle":"h1"}],"awaitPromise":true,"functionDeclaration":"f","resultOwnership":"none","target":{"realm":"r1"},"this":{"type":"null"},"userActivation":false}
CallFunctionParameters {"target":{"context":"c1"},"serializationOptions":{},"functionDeclaration":"f","awaitPromise":false} -> {"awaitPromise":false,"functionDeclaration":"f","serializationOptions":{},"target":{"context":"c1"}}
CallFunctionParameters {"x":1,"userActivation":false,"this":{"type":"null"},"target":{"realm":"r1"},"serializationOptions":{"maxObjectDepth":0},"resultOwnership":"none","functionDeclaration":"f","awaitPromise":true,"arguments":[{"handle":"h1"}]} -> {"arguments":[{"handle":"h1"}],"awaitPromise":true,"functionDeclaration":"f","resultOwnership":"none","serializationOptions":{"maxObjectDepth":0},"target":{"realm":"r1"},"this":{"type":"null"},"userActivation":false,"x":1}
DisownParameters {"target":{"realm":"r1"},"handles":[]} -> {"handles":[],"target":{"realm":"r1"}}
DisownParameters {"target":{"sandbox":"s","context":"c1"},"handles":["h2","h1"]} -> {"handles":["h2","h1"],"target":{"context":"c1","sandbox":"s"}}
GetRealmsParameters {} -> same
GetRealmsParameters {"type":"worker","context":"c1"} -> {"context":"c1","type":"worker"}
RealmInfo {"type":"window","realm":"r1","origin":"o","context":"c1"} -> {"context":"c1","origin":"o","realm":"r1","type":"window"}
GetRealmsResult {"realms":[]} -> same
GetRealmsResult {"x":1,"realms":[{"type":"window","realm":"r1","origin":"o","context":"c1","y":2}]} -> {"realms":[{"context":"c1","origin":"o","realm":"r1","type":"window","y":2}],"x":1}
RealmDestroyedParameters {"x":1,"realm":"r"} -> {"realm":"r","x":1}
CallFunctionParameters {"awaitPromise":true,"functionDeclaration":"f","target":{"realm":"r"},"this":«30 {"type":"array","value":[»«30 ]}»} -> same
CallFunctionParameters {"arguments":[«30 {"type":"array","value":[»«30 ]}»],"awaitPromise":true,"functionDeclaration":"f","target":{"realm":"r"}} -> same
SerializationOptions {"x":«60 [»«60 ]»} -> same
EvaluateParameters {"awaitPromise":true,"expression":"1","serializationOptions":{"x":«60 [»«60 ]»},"target":{"realm":"r"}} -> same
CallFunctionParameters {"awaitPromise":true,"functionDeclaration":"f","serializationOptions":{"x":«60 [»«60 ]»},"target":{"realm":"r"}} -> same
variant-of-Ownership "root" -> Root
variant-of-Ownership "none" -> None
variant-of-RealmType "window" -> Window
variant-of-RealmType "dedicated-worker" -> DedicatedWorker
variant-of-RealmType "shared-worker" -> SharedWorker
variant-of-RealmType "service-worker" -> ServiceWorker
variant-of-RealmType "worker" -> Worker
variant-of-RealmType "paint-worklet" -> PaintWorklet
variant-of-RealmType "audio-worklet" -> AudioWorklet
variant-of-RealmType "worklet" -> Worklet
is-in-context {"awaitPromise":true,"expression":"1","target":{"context":"c"}} -> true
is-in-context {"awaitPromise":true,"expression":"1","target":{"realm":"r"}} -> false
is-in-context {"awaitPromise":true,"expression":"1","target":{"realm":"r","context":"c"}} -> true
is-in-context {"awaitPromise":true,"expression":"1","target":{"realm":"r","context":5}} -> false
further-of-RealmDestroyedParameters {"realm":"r","x":1} -> r {"x":1}
"#;

const OTHERS: &str = r#"
Ownership "all" -> NoFit
Ownership null -> NoFit
RealmType "frame" -> NoFit
RealmType null -> NoFit
SerializationOptions {"maxObjectDepth":"1"} -> NoFit
SerializationOptions {"maxObjectDepth":-1} -> NoFit
SerializationOptions {"maxObjectDepth":1.5} -> NoFit
SerializationOptions {"maxObjectDepth":1.0} -> NoFit
SerializationOptions {"maxObjectDepth":-0} -> NoFit
SerializationOptions {"maxObjectDepth":9007199254740992} -> NoFit
SerializationOptions {"maxObjectDepth":true} -> NoFit
SerializationOptions {"maxObjectDepth":[1]} -> NoFit
SerializationOptions {"maxObjectDepth":{}} -> NoFit
SerializationOptions {"x":1.5} -> NoFit
SerializationOptions 5 -> NoFit
SerializationOptions null -> NoFit
SerializationOptions "1" -> NoFit
SerializationOptions [] -> NoFit
EvaluateParameters {"awaitPromise":false,"target":{"context":"c1"}} -> NoFit
EvaluateParameters {"awaitPromise":false,"expression":"1"} -> NoFit
EvaluateParameters {"expression":"1","target":{"context":"c1"}} -> NoFit
EvaluateParameters {"awaitPromise":1,"expression":"1","target":{"context":"c1"}} -> NoFit
EvaluateParameters {"awaitPromise":false,"expression":"1","target":{}} -> NoFit
EvaluateParameters {"awaitPromise":false,"expression":"1","target":null} -> NoFit
EvaluateParameters {"awaitPromise":false,"expression":"1","target":{"context":"c1"},"resultOwnership":"all"} -> NoFit
EvaluateParameters {"awaitPromise":false,"expression":"1","target":{"context":"c1"},"resultOwnership":null} -> NoFit
EvaluateParameters {"awaitPromise":false,"expression":"1","target":{"context":"c1"},"userActivation":"yes"} -> NoFit
EvaluateParameters {"awaitPromise":false,"expression":"1","target":{"context":"c1"},"serializationOptions":null} -> NoFit
EvaluateParameters {"awaitPromise":false,"expression":"1","target":{"context":"c1"},"serializationOptions":5} -> NoFit
EvaluateParameters {"awaitPromise":false,"expression":"1","target":{"context":"c1"},"serializationOptions":[]} -> NoFit
EvaluateParameters {"awaitPromise":false,"expression":"1","target":{"context":"c1"},"serializationOptions":{"maxObjectDepth":"1"}} -> NoFit
EvaluateParameters {"awaitPromise":false,"expression":"1","target":{"context":"c1"},"serializationOptions":{"maxObjectDepth":-1}} -> NoFit
EvaluateParameters {"awaitPromise":false,"expression":"1","target":{"context":"c1"},"serializationOptions":{"maxObjectDepth":1.5}} -> NoFit
EvaluateParameters {"awaitPromise":false,"expression":"1","target":{"context":"c1"},"serializationOptions":{"x":-0}} -> NoFit
CallFunctionParameters {"awaitPromise":false,"target":{"context":"c1"}} -> NoFit
CallFunctionParameters {"functionDeclaration":"f","target":{"context":"c1"}} -> NoFit
CallFunctionParameters {"awaitPromise":false,"functionDeclaration":"f"} -> NoFit
CallFunctionParameters {"awaitPromise":false,"functionDeclaration":"f","target":{"context":"c1"},"arguments":null} -> NoFit
CallFunctionParameters {"awaitPromise":false,"functionDeclaration":"f","target":{"context":"c1"},"arguments":{}} -> NoFit
CallFunctionParameters {"awaitPromise":false,"functionDeclaration":"f","target":{"context":"c1"},"arguments":[1]} -> NoFit
CallFunctionParameters {"awaitPromise":false,"functionDeclaration":"f","target":{"context":"c1"},"this":null} -> NoFit
CallFunctionParameters {"awaitPromise":false,"functionDeclaration":"f","target":{"context":"c1"},"this":{"type":"array"}} -> NoFit
CallFunctionParameters {"awaitPromise":false,"functionDeclaration":"f","target":{"context":"c1"},"resultOwnership":5} -> NoFit
CallFunctionParameters {"awaitPromise":false,"functionDeclaration":"f","target":{"context":"c1"},"userActivation":null} -> NoFit
CallFunctionParameters {"awaitPromise":false,"functionDeclaration":"f","target":{"context":"c1"},"serializationOptions":null} -> NoFit
CallFunctionParameters {"awaitPromise":false,"functionDeclaration":"f","target":{"context":"c1"},"serializationOptions":5} -> NoFit
CallFunctionParameters {"awaitPromise":false,"functionDeclaration":"f","target":{"context":"c1"},"serializationOptions":{"maxObjectDepth":"1"}} -> NoFit
CallFunctionParameters {"awaitPromise":false,"functionDeclaration":"f","target":{"context":"c1"},"serializationOptions":{"maxObjectDepth":-1}} -> NoFit
CallFunctionParameters {"awaitPromise":false,"functionDeclaration":"f","target":{"context":"c1"},"serializationOptions":{"maxObjectDepth":1.5}} -> NoFit
DisownParameters {"target":{"realm":"r1"}} -> NoFit
DisownParameters {"handles":["h1"]} -> NoFit
DisownParameters {"handles":null,"target":{"realm":"r1"}} -> NoFit
DisownParameters {"handles":["h1",null],"target":{"realm":"r1"}} -> NoFit
DisownParameters {"handles":["h1"],"target":{"realm":5}} -> NoFit
GetRealmsParameters {"context":null} -> NoFit
GetRealmsParameters {"type":null} -> NoFit
GetRealmsParameters {"type":"frame"} -> NoFit
GetRealmsParameters [] -> NoFit
RealmInfo {"context":"c1","origin":"o","realm":"r1","type":"worker"} -> NoFit
RealmInfo {"context":"c1","origin":"o","realm":"r1"} -> NoFit
RealmInfo {"context":"c1","origin":"o","type":"window"} -> NoFit
RealmInfo {"context":"c1","realm":"r1","type":"window"} -> NoFit
RealmInfo {"origin":"o","realm":"r1","type":"window"} -> NoFit
GetRealmsResult {} -> NoFit
GetRealmsResult {"realms":null} -> NoFit
GetRealmsResult {"realms":[{}]} -> NoFit
RealmDestroyedParameters {"x":1} -> NoFit
RealmDestroyedParameters {"realm":null} -> NoFit
CallFunctionParameters {"awaitPromise":true,"functionDeclaration":"f","target":{"realm":"r"},"this":«31 {"type":"array","value":[»«31 ]}»} -> NoFit
CallFunctionParameters {"arguments":[«31 {"type":"array","value":[»«31 ]}»],"awaitPromise":true,"functionDeclaration":"f","target":{"realm":"r"}} -> NoFit
SerializationOptions {"x":«61 [»«61 ]»} -> NoFit
EvaluateParameters {"awaitPromise":true,"expression":"1","serializationOptions":{"x":«61 [»«61 ]»},"target":{"realm":"r"}} -> NoFit
CallFunctionParameters {"awaitPromise":true,"functionDeclaration":"f","serializationOptions":{"x":«61 [»«61 ]»},"target":{"realm":"r"}} -> NoFit
"#;

#[test]
fn texts_fit_or_not(rt: HostRuntime) -> Result<(), Fail> {
    check_rows::<Script>(rt.alloc(), TEXTS)?;
    check_rows::<Script>(rt.alloc(), OTHERS)
}

/// Whether the target of an evaluate is one of a context.
fn is_in_context(alloc: Global, text: &str) -> Result<String, Fail> {
    let value = value_of::<EvaluateParameters>(alloc, text)?;
    Ok(matches!(value.target, Target::Context(_)).to_string(alloc)?)
}

/// The realm, and the further members.
fn further(alloc: Global, text: &str) -> Result<String, Fail> {
    let value = value_of::<RealmDestroyedParameters>(alloc, text)?;
    let ext = written(alloc, Tree::Map(value.ext.copy_members()?))?;
    Ok(format!(in alloc; "{} {ext}", value.realm)?)
}

/// What becomes of the same parts with further members, by the name of a type.
struct ScriptMade;

impl Asked for ScriptMade {
    fn found(alloc: Global, word: &str, text: &str) -> Result<String, Fail> {
        let ext = members_of(alloc, text)?;
        match word {
            "SerializationOptions" => options_with(alloc, Some(Some(JsUint { value: 1 })), ext),
            "SerializationOptions-of-null" => options_with(alloc, Some(None), ext),
            "SerializationOptions-of-nothing" => options_with(alloc, None, ext),
            "EvaluateParameters" => evaluate_with(alloc, ext),
            "CallFunctionParameters" => call_with(alloc, ext),
            "DisownParameters" => disown_with(alloc, ext),
            "GetRealmsParameters" => {
                let context = Some(owned(alloc, "c1")?);
                let kind = Some(RealmType::Worklet);
                told(alloc, GetRealmsParameters::new(context, kind, ext))
            }
            "RealmInfo" => {
                let realm = owned(alloc, "r1")?;
                let origin = owned(alloc, "o")?;
                let context = owned(alloc, "c1")?;
                told(alloc, RealmInfo::new(realm, origin, context, ext))
            }
            "GetRealmsResult" => {
                let realms = value_of(alloc, "[]")?;
                told(alloc, GetRealmsResult::new(realms, ext))
            }
            "RealmDestroyedParameters" => {
                let realm = owned(alloc, "r1")?;
                told(alloc, RealmDestroyedParameters::new(realm, ext))
            }
            _ => Err(Fail::from("no such type")),
        }
    }
}

const MADE: &str = r#"
SerializationOptions {"x":1} -> {"maxObjectDepth":1,"x":1}
SerializationOptions {"maxDomDepth":0} -> {"maxDomDepth":0,"maxObjectDepth":1}
SerializationOptions-of-null {"x":1} -> {"maxObjectDepth":null,"x":1}
SerializationOptions-of-nothing {"x":1} -> same
SerializationOptions-of-nothing {} -> same
SerializationOptions,SerializationOptions-of-null,SerializationOptions-of-nothing {"maxObjectDepth":1} -> Clash
SerializationOptions,SerializationOptions-of-null,SerializationOptions-of-nothing {"maxObjectDepth":null} -> Clash
SerializationOptions {"maxObjectDepth":"1","x":1.5} -> Clash
SerializationOptions {"x":[-0]} -> TooDeep
EvaluateParameters {"x":[1]} -> {"awaitPromise":true,"expression":"1","resultOwnership":"root","target":{"realm":"r1"},"x":[1]}
EvaluateParameters {"target":{}} -> Clash
also where that member was left out | EvaluateParameters {"userActivation":5} -> Clash
EvaluateParameters {"serializationOptions":{"maxObjectDepth":1}} -> Clash
EvaluateParameters {"serializationOptions":null} -> Clash
EvaluateParameters {"serializationOptions":{"x":1.5}} -> Clash
EvaluateParameters {"target":{},"x":1.5} -> Clash
EvaluateParameters {"x":{"y":1.5}} -> TooDeep
CallFunctionParameters {"x":1} -> {"arguments":[{"handle":"h1"}],"awaitPromise":false,"functionDeclaration":"f","serializationOptions":{"maxObjectDepth":1},"target":{"realm":"r1"},"this":{"type":"null"},"userActivation":true,"x":1}
CallFunctionParameters {"resultOwnership":1} -> Clash
CallFunctionParameters {"serializationOptions":{}} -> Clash
CallFunctionParameters {"this":1} -> Clash
CallFunctionParameters {"x":1.5} -> TooDeep
DisownParameters {} -> {"handles":["h1"],"target":{"realm":"r1"}}
DisownParameters {"handles":[]} -> Clash
GetRealmsParameters {} -> {"context":"c1","type":"worklet"}
GetRealmsParameters {"type":1} -> Clash
RealmInfo {"sandbox":"s"} -> {"context":"c1","origin":"o","realm":"r1","sandbox":"s","type":"window"}
RealmInfo {"type":"window"} -> Clash
GetRealmsResult {} -> {"realms":[]}
GetRealmsResult {"realms":[]} -> Clash
RealmDestroyedParameters {"x":1} -> {"realm":"r1","x":1}
RealmDestroyedParameters {"realm":1} -> Clash
SerializationOptions {"x":«60 [»«60 ]»} -> {"maxObjectDepth":1,"x":«60 [»«60 ]»}
SerializationOptions {"x":«61 [»«61 ]»} -> TooDeep
EvaluateParameters {"x":«60 [»«60 ]»} -> {"awaitPromise":true,"expression":"1","resultOwnership":"root","target":{"realm":"r1"},"x":«60 [»«60 ]»}
EvaluateParameters {"x":«61 [»«61 ]»} -> TooDeep
CallFunctionParameters {"x":«60 [»«60 ]»} -> {"arguments":[{"handle":"h1"}],"awaitPromise":false,"functionDeclaration":"f","serializationOptions":{"maxObjectDepth":1},"target":{"realm":"r1"},"this":{"type":"null"},"userActivation":true,"x":«60 [»«60 ]»}
CallFunctionParameters {"x":«61 [»«61 ]»} -> TooDeep
DisownParameters {"x":«60 [»«60 ]»} -> {"handles":["h1"],"target":{"realm":"r1"},"x":«60 [»«60 ]»}
DisownParameters {"x":«61 [»«61 ]»} -> TooDeep
GetRealmsParameters {"x":«60 [»«60 ]»} -> {"context":"c1","type":"worklet","x":«60 [»«60 ]»}
GetRealmsParameters {"x":«61 [»«61 ]»} -> TooDeep
RealmInfo {"x":«60 [»«60 ]»} -> {"context":"c1","origin":"o","realm":"r1","type":"window","x":«60 [»«60 ]»}
RealmInfo {"x":«61 [»«61 ]»} -> TooDeep
GetRealmsResult {"x":«60 [»«60 ]»} -> {"realms":[],"x":«60 [»«60 ]»}
GetRealmsResult {"x":«61 [»«61 ]»} -> TooDeep
RealmDestroyedParameters {"x":«60 [»«60 ]»} -> {"realm":"r1","x":«60 [»«60 ]»}
RealmDestroyedParameters {"x":«61 [»«61 ]»} -> TooDeep
"#;

#[test]
fn made_with_further_members(rt: HostRuntime) -> Result<(), Fail> {
    check_rows::<ScriptMade>(rt.alloc(), MADE)
}

const TARGET: &str = r#"{"realm":"r1"}"#;

fn options_with(
    alloc: Global,
    depth: Option<Option<JsUint>>,
    ext: Members,
) -> Result<String, Fail> {
    told(alloc, SerializationOptions::new(depth, ext))
}

fn evaluate_with(alloc: Global, ext: Members) -> Result<String, Fail> {
    let expression = owned(alloc, "1")?;
    let target = value_of(alloc, TARGET)?;
    let root = Some(Ownership::Root);
    told(
        alloc,
        EvaluateParameters::new(expression, target, true, root, None, None, ext),
    )
}

fn call_with(alloc: Global, ext: Members) -> Result<String, Fail> {
    let function = owned(alloc, "f")?;
    let target = value_of(alloc, TARGET)?;
    let arguments = Some(value_of(alloc, r#"[{"handle":"h1"}]"#)?);
    let options = Some(value_of(alloc, r#"{"maxObjectDepth":1}"#)?);
    let this = Some(value_of(alloc, r#"{"type":"null"}"#)?);
    told(
        alloc,
        CallFunctionParameters::new(
            function,
            false,
            target,
            arguments,
            None,
            options,
            this,
            Some(true),
            ext,
        ),
    )
}

fn disown_with(alloc: Global, ext: Members) -> Result<String, Fail> {
    let handles = value_of(alloc, r#"["h1"]"#)?;
    let target = value_of(alloc, TARGET)?;
    told(alloc, DisownParameters::new(handles, target, ext))
}
