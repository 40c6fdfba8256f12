//! Browsing contexts: texts that fit and texts that do not, and what the constructors answer.
use bidi_params::{
    ActivateParameters, CloseParameters, ContextType, CreateParameters, CreateResult,
    GetTreeParameters, NavigateParameters, NavigateResult, NavigationInfo, ReloadParameters,
    TraverseHistoryParameters, Wait,
};
use bidi_tree::{JsInt, JsUint};
use std::alloc::Global;
use std::test::Fail;
use testing::rows::{Asked, check_rows};
use testing::texts::{again, members_of, owned, told, variant_of};

/// What a text reads as, by the name of a type.
struct Browsing;

impl Asked for Browsing {
    fn found(alloc: Global, word: &str, text: &str) -> Result<String, Fail> {
        match word {
            "ContextType" => again::<ContextType>(alloc, text),
            "Wait" => again::<Wait>(alloc, text),
            "CreateParameters" => again::<CreateParameters>(alloc, text),
            "CreateResult" => again::<CreateResult>(alloc, text),
            "ActivateParameters" => again::<ActivateParameters>(alloc, text),
            "CloseParameters" => again::<CloseParameters>(alloc, text),
            "GetTreeParameters" => again::<GetTreeParameters>(alloc, text),
            "NavigateParameters" => again::<NavigateParameters>(alloc, text),
            "ReloadParameters" => again::<ReloadParameters>(alloc, text),
            "NavigateResult" => again::<NavigateResult>(alloc, text),
            "TraverseHistoryParameters" => again::<TraverseHistoryParameters>(alloc, text),
            "NavigationInfo" => again::<NavigationInfo>(alloc, text),
            "variant-of-ContextType" => variant_of::<ContextType>(alloc, text),
            "variant-of-Wait" => variant_of::<Wait>(alloc, text),
            _ => Err(Fail::from("no such type")),
        }
    }
}

const TEXTS: &str = r#"
ContextType "tab" -> same
ContextType "window" -> same
Wait "none" -> same
Wait "interactive" -> same
Wait "complete" -> same
CreateParameters {"type":"tab"} -> same
CreateParameters {"userContext":"default","type":"window","referenceContext":"c1","background":true} -> {"background":true,"referenceContext":"c1","type":"window","userContext":"default"}
CreateParameters {"z":[1],"type":"tab","a":null} -> {"a":null,"type":"tab","z":[1]}
CreateResult {"context":"c1"} -> same
ActivateParameters {"x":{},"context":"c1"} -> {"context":"c1","x":{}}
CloseParameters {"context":"c1"} -> same
CloseParameters {"promptUnload":false,"context":"c1"} -> {"context":"c1","promptUnload":false}
GetTreeParameters {} -> same
GetTreeParameters {"root":"c1","maxDepth":0} -> {"maxDepth":0,"root":"c1"}
GetTreeParameters {"maxDepth":9007199254740991} -> same
GetTreeParameters {"x":{"y":[]}} -> same
NavigateParameters {"url":"about:blank","context":"c1"} -> {"context":"c1","url":"about:blank"}
NavigateParameters {"wait":"complete","url":"about:blank","context":"c1"} -> {"context":"c1","url":"about:blank","wait":"complete"}
ReloadParameters {"wait":"none","ignoreCache":true,"context":"c1"} -> {"context":"c1","ignoreCache":true,"wait":"none"}
NavigateResult {"url":"about:blank","navigation":null} -> {"navigation":null,"url":"about:blank"}
NavigateResult {"url":"about:blank","navigation":"n1"} -> {"navigation":"n1","url":"about:blank"}
TraverseHistoryParameters {"delta":-1,"context":"c1"} -> {"context":"c1","delta":-1}
TraverseHistoryParameters {"delta":-9007199254740991,"context":"c1"} -> {"context":"c1","delta":-9007199254740991}
NavigationInfo {"url":"about:blank","timestamp":5,"navigation":"n1","context":"c1"} -> {"context":"c1","navigation":"n1","timestamp":5,"url":"about:blank"}
NavigationInfo {"url":"about:blank","timestamp":9007199254740991,"navigation":null,"context":"c1","x":[]} -> {"context":"c1","navigation":null,"timestamp":9007199254740991,"url":"about:blank","x":[]}
GetTreeParameters {"x":«60 [»«60 ]»} -> same
variant-of-ContextType "tab" -> Tab
variant-of-ContextType "window" -> Window
variant-of-Wait "none" -> None
variant-of-Wait "interactive" -> Interactive
variant-of-Wait "complete" -> Complete
"#;

const OTHERS: &str = r#"
ContextType "Tab" -> NoFit
ContextType "" -> NoFit
ContextType null -> NoFit
Wait "eager" -> NoFit
Wait null -> NoFit
CreateParameters {} -> NoFit
CreateParameters {"type":"popup"} -> NoFit
CreateParameters {"type":null} -> NoFit
CreateParameters {"type":"tab","referenceContext":5} -> NoFit
CreateParameters {"type":"tab","background":1} -> NoFit
CreateParameters {"type":"tab","background":null} -> NoFit
CreateParameters {"type":"tab","userContext":null} -> NoFit
CreateParameters {"type":"tab","x":1.5} -> NoFit
CreateParameters [] -> NoFit
CreateResult {} -> NoFit
CreateResult {"context":null} -> NoFit
ActivateParameters {} -> NoFit
ActivateParameters {"context":["c1"]} -> NoFit
ActivateParameters null -> NoFit
CloseParameters {"promptUnload":true} -> NoFit
CloseParameters {"context":"c1","promptUnload":"yes"} -> NoFit
CloseParameters {"context":"c1","promptUnload":null} -> NoFit
GetTreeParameters {"maxDepth":null} -> NoFit
GetTreeParameters {"maxDepth":-1} -> NoFit
GetTreeParameters {"maxDepth":9007199254740992} -> NoFit
GetTreeParameters {"maxDepth":1.0} -> NoFit
GetTreeParameters {"root":null} -> NoFit
GetTreeParameters {"root":5} -> NoFit
GetTreeParameters [] -> NoFit
NavigateParameters {"url":"about:blank"} -> NoFit
NavigateParameters {"context":"c1"} -> NoFit
NavigateParameters {"context":"c1","url":"about:blank","wait":5} -> NoFit
NavigateParameters {"context":"c1","url":"about:blank","wait":null} -> NoFit
NavigateParameters {"context":"c1","url":"about:blank","wait":"eager"} -> NoFit
ReloadParameters {"ignoreCache":true} -> NoFit
ReloadParameters {"context":"c1","ignoreCache":0} -> NoFit
ReloadParameters {"context":"c1","ignoreCache":null} -> NoFit
ReloadParameters {"context":"c1","wait":"all"} -> NoFit
NavigateResult {"url":"about:blank"} -> NoFit
NavigateResult {"navigation":null} -> NoFit
NavigateResult {"navigation":5,"url":"about:blank"} -> NoFit
NavigateResult {"navigation":null,"url":null} -> NoFit
TraverseHistoryParameters {"context":"c1"} -> NoFit
TraverseHistoryParameters {"delta":1} -> NoFit
TraverseHistoryParameters {"context":"c1","delta":1.0} -> NoFit
TraverseHistoryParameters {"context":"c1","delta":null} -> NoFit
TraverseHistoryParameters {"context":"c1","delta":9007199254740992} -> NoFit
TraverseHistoryParameters {"context":"c1","delta":-9007199254740992} -> NoFit
NavigationInfo {"navigation":null,"timestamp":5,"url":"about:blank"} -> NoFit
NavigationInfo {"context":"c1","timestamp":5,"url":"about:blank"} -> NoFit
NavigationInfo {"context":"c1","navigation":null,"url":"about:blank"} -> NoFit
NavigationInfo {"context":"c1","navigation":null,"timestamp":5} -> NoFit
NavigationInfo {"context":"c1","navigation":null,"timestamp":-1,"url":"about:blank"} -> NoFit
NavigationInfo {"context":"c1","navigation":null,"timestamp":9007199254740992,"url":"about:blank"} -> NoFit
NavigationInfo {"context":"c1","navigation":false,"timestamp":5,"url":"about:blank"} -> NoFit
GetTreeParameters {"x":«61 [»«61 ]»} -> NoFit
"#;

#[test]
fn texts_fit_or_not(rt: HostRuntime) -> Result<(), Fail> {
    check_rows::<Browsing>(rt.alloc(), TEXTS)?;
    check_rows::<Browsing>(rt.alloc(), OTHERS)
}

/// What becomes of the same parts with further members, by the name of a type.
struct BrowsingMade;

impl Asked for BrowsingMade {
    fn found(alloc: Global, word: &str, text: &str) -> Result<String, Fail> {
        let ext = members_of(alloc, text)?;
        let context = owned(alloc, "c1")?;
        let url = owned(alloc, "u")?;
        match word {
            "CreateParameters" => told(
                alloc,
                CreateParameters::new(ContextType::Tab, Some(context), None, None, ext),
            ),
            "CreateResult" => told(alloc, CreateResult::new(context, ext)),
            "ActivateParameters" => told(alloc, ActivateParameters::new(context, ext)),
            "CloseParameters" => told(alloc, CloseParameters::new(context, Some(true), ext)),
            "GetTreeParameters" => told(
                alloc,
                GetTreeParameters::new(JsUint::new(2), Some(context), ext),
            ),
            "NavigateParameters" => told(
                alloc,
                NavigateParameters::new(context, url, Some(Wait::Complete), ext),
            ),
            "ReloadParameters" => told(
                alloc,
                ReloadParameters::new(context, Some(false), Some(Wait::None), ext),
            ),
            "NavigateResult" => told(alloc, NavigateResult::new(None, url, ext)),
            "TraverseHistoryParameters" => {
                let delta = JsInt::new(-1).ok_or("no number")?;
                told(alloc, TraverseHistoryParameters::new(context, delta, ext))
            }
            "NavigationInfo" => {
                let timestamp = JsUint::new(5).ok_or("no number")?;
                let navigation = owned(alloc, "n1")?;
                told(
                    alloc,
                    NavigationInfo::new(context, Some(navigation), timestamp, url, ext),
                )
            }
            _ => Err(Fail::from("no such type")),
        }
    }
}

const MADE: &str = r#"
CreateParameters {"x":[1]} -> {"referenceContext":"c1","type":"tab","x":[1]}
CreateParameters {"type":"tab"} -> Clash
also where that member was left out | CreateParameters {"userContext":5} -> Clash
CreateParameters {"background":true,"x":1.5} -> Clash
CreateParameters {"x":[-0]} -> TooDeep
CreateResult {} -> {"context":"c1"}
CreateResult {"context":"c1"} -> Clash
ActivateParameters {"a":null} -> {"a":null,"context":"c1"}
ActivateParameters {"context":5} -> Clash
CloseParameters {"x":1} -> {"context":"c1","promptUnload":true,"x":1}
CloseParameters {"promptUnload":1} -> Clash
GetTreeParameters {"x":{"y":[]}} -> {"maxDepth":2,"root":"c1","x":{"y":[]}}
GetTreeParameters {"maxDepth":null} -> Clash
GetTreeParameters {"x":1e2} -> TooDeep
NavigateParameters {} -> {"context":"c1","url":"u","wait":"complete"}
NavigateParameters {"wait":5} -> Clash
ReloadParameters {} -> {"context":"c1","ignoreCache":false,"wait":"none"}
ReloadParameters {"ignoreCache":5} -> Clash
NavigateResult {} -> {"navigation":null,"url":"u"}
NavigateResult {"navigation":null} -> Clash
TraverseHistoryParameters {} -> {"context":"c1","delta":-1}
TraverseHistoryParameters {"delta":2} -> Clash
NavigationInfo {} -> {"context":"c1","navigation":"n1","timestamp":5,"url":"u"}
NavigationInfo {"timestamp":5} -> Clash
CreateParameters {"x":«60 [»«60 ]»} -> {"referenceContext":"c1","type":"tab","x":«60 [»«60 ]»}
CreateParameters {"x":«61 [»«61 ]»} -> TooDeep
CreateResult {"x":«60 [»«60 ]»} -> {"context":"c1","x":«60 [»«60 ]»}
CreateResult {"x":«61 [»«61 ]»} -> TooDeep
ActivateParameters {"x":«60 [»«60 ]»} -> {"context":"c1","x":«60 [»«60 ]»}
ActivateParameters {"x":«61 [»«61 ]»} -> TooDeep
CloseParameters {"x":«60 [»«60 ]»} -> {"context":"c1","promptUnload":true,"x":«60 [»«60 ]»}
CloseParameters {"x":«61 [»«61 ]»} -> TooDeep
GetTreeParameters {"x":«60 [»«60 ]»} -> {"maxDepth":2,"root":"c1","x":«60 [»«60 ]»}
GetTreeParameters {"x":«61 [»«61 ]»} -> TooDeep
NavigateParameters {"x":«60 [»«60 ]»} -> {"context":"c1","url":"u","wait":"complete","x":«60 [»«60 ]»}
NavigateParameters {"x":«61 [»«61 ]»} -> TooDeep
ReloadParameters {"x":«60 [»«60 ]»} -> {"context":"c1","ignoreCache":false,"wait":"none","x":«60 [»«60 ]»}
ReloadParameters {"x":«61 [»«61 ]»} -> TooDeep
NavigateResult {"x":«60 [»«60 ]»} -> {"navigation":null,"url":"u","x":«60 [»«60 ]»}
NavigateResult {"x":«61 [»«61 ]»} -> TooDeep
TraverseHistoryParameters {"x":«60 [»«60 ]»} -> {"context":"c1","delta":-1,"x":«60 [»«60 ]»}
TraverseHistoryParameters {"x":«61 [»«61 ]»} -> TooDeep
NavigationInfo {"x":«60 [»«60 ]»} -> {"context":"c1","navigation":"n1","timestamp":5,"url":"u","x":«60 [»«60 ]»}
NavigationInfo {"x":«61 [»«61 ]»} -> TooDeep
"#;

#[test]
fn made_with_further_members(rt: HostRuntime) -> Result<(), Fail> {
    check_rows::<BrowsingMade>(rt.alloc(), MADE)
}
