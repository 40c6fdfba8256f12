//! Sessions and subscriptions: texts that fit and texts that do not, and what the constructors answer.
use bidi_params::session::{NewParameters, NewResult};
use bidi_params::{
    Capabilities, CapabilitiesRequest, CapabilityRequest, StatusResult, SubscribeParameters,
    SubscribeResult, UnsubscribeByEvents, UnsubscribeById, UnsubscribeParameters,
};
use bidi_tree::Members;
use std::alloc::Global;
use std::test::Fail;
use testing::rows::{Asked, check_rows};
use testing::texts::{again, members_of, owned, told, value_of, with_further};

/// What a text reads as, by the name of a type.
struct Session;

impl Asked for Session {
    fn found(alloc: Global, word: &str, text: &str) -> Result<String, Fail> {
        match word {
            "StatusResult" => again::<StatusResult>(alloc, text),
            "NewParameters" => again::<NewParameters>(alloc, text),
            "CapabilitiesRequest" => again::<CapabilitiesRequest>(alloc, text),
            "CapabilityRequest" => again::<CapabilityRequest>(alloc, text),
            "NewResult" => again::<NewResult>(alloc, text),
            "Capabilities" => again::<Capabilities>(alloc, text),
            "SubscribeParameters" => again::<SubscribeParameters>(alloc, text),
            "SubscribeResult" => again::<SubscribeResult>(alloc, text),
            "UnsubscribeParameters" => again::<UnsubscribeParameters>(alloc, text),
            "UnsubscribeById" => again::<UnsubscribeById>(alloc, text),
            "UnsubscribeByEvents" => again::<UnsubscribeByEvents>(alloc, text),
            "alternative" => alternative(alloc, text),
            _ => Err(Fail::from("no such type")),
        }
    }
}

const TEXTS: &str = r#"
StatusResult {"ready":true,"message":"ready"} -> {"message":"ready","ready":true}
StatusResult {"z":[null],"ready":false,"message":"","a":{}} -> {"a":{},"message":"","ready":false,"z":[null]}
StatusResult {"ready":true} -> NoFit
StatusResult {"message":"m"} -> NoFit
StatusResult {"ready":1,"message":"m"} -> NoFit
StatusResult {"ready":true,"message":null} -> NoFit
StatusResult {"ready":true,"message":"m","x":1.5} -> NoFit
StatusResult [] -> NoFit
NewParameters {"x":9007199254740991,"capabilities":{}} -> {"capabilities":{},"x":9007199254740991}
NewParameters {} -> NoFit
NewParameters {"capabilities":null} -> NoFit
NewParameters {"capabilities":[]} -> NoFit
NewParameters {"capabilities":{"alwaysMatch":[]}} -> NoFit
NewParameters {"x":9007199254740992,"capabilities":{}} -> NoFit
CapabilitiesRequest {"firstMatch":[{"browserName":"b"},{}],"alwaysMatch":{"acceptInsecureCerts":true}} -> {"alwaysMatch":{"acceptInsecureCerts":true},"firstMatch":[{"browserName":"b"},{}]}
CapabilitiesRequest {"firstMatch":[]} -> same
CapabilitiesRequest {"x":-1} -> same
CapabilitiesRequest {"alwaysMatch":null} -> NoFit
CapabilitiesRequest {"firstMatch":null} -> NoFit
CapabilitiesRequest {"firstMatch":{}} -> NoFit
CapabilitiesRequest {"firstMatch":[{},1]} -> NoFit
CapabilitiesRequest {"alwaysMatch":{"browserName":5}} -> NoFit
CapabilityRequest {"proxy":{},"platformName":"p","browserVersion":"v","browserName":"b","acceptInsecureCerts":false} -> {"acceptInsecureCerts":false,"browserName":"b","browserVersion":"v","platformName":"p","proxy":{}}
CapabilityRequest {} -> same
CapabilityRequest {"acceptInsecureCerts":"true"} -> NoFit
CapabilityRequest {"browserName":false} -> NoFit
CapabilityRequest {"browserVersion":null} -> NoFit
CapabilityRequest {"platformName":[]} -> NoFit
NewResult {"sessionId":"s","capabilities":{"userAgent":"u","setWindowRect":false,"platformName":"p","browserVersion":"v","browserName":"b","acceptInsecureCerts":true}} -> {"capabilities":{"acceptInsecureCerts":true,"browserName":"b","browserVersion":"v","platformName":"p","setWindowRect":false,"userAgent":"u"},"sessionId":"s"}
NewResult {"sessionId":"s"} -> NoFit
NewResult {"sessionId":"s","capabilities":{}} -> NoFit
NewResult {"sessionId":null,"capabilities":{"acceptInsecureCerts":true,"browserName":"b","browserVersion":"v","platformName":"p","setWindowRect":false,"userAgent":"u"}} -> NoFit
Capabilities {"userAgent":"u","setWindowRect":true,"proxy":{},"platformName":"p","browserVersion":"v","browserName":"b","acceptInsecureCerts":false} -> {"acceptInsecureCerts":false,"browserName":"b","browserVersion":"v","platformName":"p","proxy":{},"setWindowRect":true,"userAgent":"u"}
Capabilities {"acceptInsecureCerts":true,"browserName":"b","browserVersion":"v","platformName":"p","setWindowRect":false} -> NoFit
Capabilities {"acceptInsecureCerts":true,"browserName":"b","browserVersion":"v","platformName":"p","setWindowRect":"no","userAgent":"u"} -> NoFit
SubscribeParameters {"userContexts":["u"],"events":["f","e"],"contexts":["c"],"x":0} -> {"contexts":["c"],"events":["f","e"],"userContexts":["u"],"x":0}
SubscribeParameters {"events":["e"]} -> same
SubscribeParameters {"contexts":["c"]} -> NoFit
SubscribeParameters {"events":[]} -> NoFit
SubscribeParameters {"events":"e"} -> NoFit
SubscribeParameters {"events":["e",1]} -> NoFit
SubscribeParameters {"events":["e"],"contexts":[]} -> NoFit
SubscribeParameters {"events":["e"],"contexts":null} -> NoFit
SubscribeParameters {"events":["e"],"userContexts":[null]} -> NoFit
SubscribeResult {"subscription":"s"} -> same
SubscribeResult {} -> NoFit
SubscribeResult {"subscription":5} -> NoFit
SubscribeResult {"subscription":null} -> NoFit
UnsubscribeById {"subscriptions":["a"],"events":[]} -> {"events":[],"subscriptions":["a"]}
UnsubscribeById {} -> NoFit
UnsubscribeById {"subscriptions":[]} -> NoFit
UnsubscribeById {"subscriptions":null} -> NoFit
UnsubscribeByEvents {"subscriptions":["a"],"events":["b"]} -> {"events":["b"],"subscriptions":["a"]}
UnsubscribeByEvents {} -> NoFit
UnsubscribeByEvents {"events":[]} -> NoFit
UnsubscribeByEvents {"events":["b",null]} -> NoFit
UnsubscribeParameters {"subscriptions":["a","b"]} -> same
UnsubscribeParameters {"events":["b"],"a":1} -> {"a":1,"events":["b"]}
UnsubscribeParameters {} -> NoFit
UnsubscribeParameters {"subscriptions":[],"events":[]} -> NoFit
UnsubscribeParameters {"subscriptions":["a"],"x":1.5} -> NoFit
alternative {"subscriptions":["a"]} -> by id {}
alternative {"events":["b"]} -> by events {}
alternative {"subscriptions":["a"],"events":["b"]} -> by id {"events":["b"]}
alternative {"subscriptions":[],"events":["b"]} -> by events {"subscriptions":[]}
"#;

#[test]
fn texts_fit_or_not(rt: HostRuntime) -> Result<(), Fail> {
    check_rows::<Session>(rt.alloc(), TEXTS)
}

/// The name of the alternative, and its further members.
fn alternative(alloc: Global, text: &str) -> Result<String, Fail> {
    match value_of(alloc, text)? {
        UnsubscribeParameters::ById(by_id) => with_further(alloc, "by id", &by_id.ext),
        UnsubscribeParameters::ByEvents(by_events) => with_further(
            alloc,
            "by events",
            &by_events.ext,
        ),
    }
}

/// What becomes of the same parts with further members, by the name of a type.
struct SessionMade;

impl Asked for SessionMade {
    fn found(alloc: Global, word: &str, text: &str) -> Result<String, Fail> {
        let ext = members_of(alloc, text)?;
        match word {
            "StatusResult" => {
                let message = owned(alloc, "ready")?;
                told(alloc, StatusResult::new(true, message, ext))
            }
            "NewParameters" => told(alloc, NewParameters::new(value_of(alloc, "{}")?, ext)),
            "CapabilitiesRequest" => requests_with(alloc, ext),
            "CapabilityRequest" => {
                let browser_name = Some(owned(alloc, "b")?);
                told(
                    alloc,
                    CapabilityRequest::new(Some(false), browser_name, None, None, ext),
                )
            }
            "NewResult" => new_result_with(alloc, ext),
            "Capabilities" => capabilities_with(alloc, ext),
            "SubscribeParameters" => subscribe_with(alloc, ext),
            "SubscribeResult" => told(alloc, SubscribeResult::new(owned(alloc, "s")?, ext)),
            "UnsubscribeById" => {
                let subscriptions = value_of(alloc, r#"["a"]"#)?;
                told(alloc, UnsubscribeById::new(subscriptions, ext))
            }
            "UnsubscribeByEvents" => {
                let events = value_of(alloc, r#"["e"]"#)?;
                told(alloc, UnsubscribeByEvents::new(alloc, events, ext))
            }
            _ => Err(Fail::from("no such type")),
        }
    }
}

const MADE: &str = r#"
StatusResult {"x":[1]} -> {"message":"ready","ready":true,"x":[1]}
StatusResult {"ready":true} -> Clash
StatusResult {"message":"m","x":1.5} -> Clash
StatusResult {"x":1.5} -> TooDeep
NewParameters {"x":null} -> {"capabilities":{},"x":null}
NewParameters {"capabilities":{}} -> Clash
NewParameters {"x":-0} -> TooDeep
CapabilitiesRequest {} -> {"alwaysMatch":{"browserName":"b"},"firstMatch":[{}]}
CapabilitiesRequest {"alwaysMatch":{}} -> Clash
CapabilitiesRequest {"firstMatch":[]} -> Clash
CapabilitiesRequest {"x":[1e2]} -> TooDeep
CapabilityRequest {"proxy":{}} -> {"acceptInsecureCerts":false,"browserName":"b","proxy":{}}
CapabilityRequest {"acceptInsecureCerts":false} -> Clash
CapabilityRequest {"browserName":"b"} -> Clash
CapabilityRequest {"browserVersion":"v"} -> Clash
CapabilityRequest {"platformName":"p"} -> Clash
CapabilityRequest {"proxy":{"port":0.5}} -> TooDeep
NewResult {} -> {"capabilities":{"acceptInsecureCerts":true,"browserName":"b","browserVersion":"v","platformName":"p","setWindowRect":false,"userAgent":"u"},"sessionId":"s"}
NewResult {"sessionId":"t"} -> Clash
NewResult {"capabilities":null} -> Clash
NewResult {"x":9007199254740992} -> TooDeep
Capabilities {"proxy":{}} -> {"acceptInsecureCerts":true,"browserName":"b","browserVersion":"v","platformName":"p","proxy":{},"setWindowRect":false,"userAgent":"u"}
Capabilities {"acceptInsecureCerts":true} -> Clash
Capabilities {"userAgent":"u"} -> Clash
Capabilities {"x":1.5} -> TooDeep
SubscribeParameters {} -> {"contexts":["c"],"events":["e"]}
SubscribeParameters {"events":["e"]} -> Clash
SubscribeParameters {"userContexts":["u"]} -> Clash
SubscribeParameters {"x":1.5} -> TooDeep
SubscribeResult {"a":0} -> {"a":0,"subscription":"s"}
SubscribeResult {"subscription":"t"} -> Clash
SubscribeResult {"x":1.5} -> TooDeep
UnsubscribeById {"events":["b"]} -> {"events":["b"],"subscriptions":["a"]}
UnsubscribeById {"subscriptions":["a"]} -> Clash
UnsubscribeById {"x":1.5} -> TooDeep
UnsubscribeByEvents {} -> {"events":["e"]}
UnsubscribeByEvents {"subscriptions":5} -> {"events":["e"],"subscriptions":5}
UnsubscribeByEvents {"subscriptions":[]} -> {"events":["e"],"subscriptions":[]}
UnsubscribeByEvents {"events":["b"]} -> Clash
UnsubscribeByEvents {"events":["b"],"subscriptions":["a"]} -> Clash
UnsubscribeByEvents {"subscriptions":["a"]} -> Shadowed
UnsubscribeByEvents {"x":1.5} -> TooDeep
the earlier alternative does not take such a member either | UnsubscribeByEvents {"subscriptions":["a"],"x":1.5} -> TooDeep
StatusResult {"x":«60 [»«60 ]»} -> {"message":"ready","ready":true,"x":«60 [»«60 ]»}
StatusResult {"x":«61 [»«61 ]»} -> TooDeep
UnsubscribeByEvents {"x":«60 [»«60 ]»} -> {"events":["e"],"x":«60 [»«60 ]»}
UnsubscribeByEvents {"x":«61 [»«61 ]»} -> TooDeep
"#;

#[test]
fn made_with_further_members(rt: HostRuntime) -> Result<(), Fail> {
    check_rows::<SessionMade>(rt.alloc(), MADE)
}

/// The events `["e"]` with further members: the second of two alternatives, of which the first has subscriptions.
const ALTERNATIVES: &str = r#"
UnsubscribeByEvents {} -> {"events":["e"]}
UnsubscribeByEvents {"x":[1]} -> {"events":["e"],"x":[1]}
UnsubscribeByEvents {"subscriptions":[]} -> {"events":["e"],"subscriptions":[]}
UnsubscribeByEvents {"events":[]} -> Clash
UnsubscribeByEvents {"events":[],"subscriptions":["a"]} -> Clash
UnsubscribeByEvents {"events":[],"x":1.5} -> Clash
UnsubscribeByEvents {"subscriptions":["a"]} -> Shadowed
UnsubscribeByEvents {"x":[-0]} -> TooDeep
the earlier alternative does not take such a member either | UnsubscribeByEvents {"subscriptions":["a"],"x":1.5} -> TooDeep
UnsubscribeByEvents {"x":«60 [»«60 ]»} -> {"events":["e"],"x":«60 [»«60 ]»}
UnsubscribeByEvents {"x":«61 [»«61 ]»} -> TooDeep
"#;

#[test]
fn a_constructor_refuses_with_the_first_cause(rt: HostRuntime) -> Result<(), Fail> {
    check_rows::<SessionMade>(rt.alloc(), ALTERNATIVES)
}

fn requests_with(alloc: Global, ext: Members) -> Result<String, Fail> {
    let always_match = Some(value_of(alloc, r#"{"browserName":"b"}"#)?);
    let first_match = Some(value_of(alloc, "[{}]")?);
    told(
        alloc,
        CapabilitiesRequest::new(always_match, first_match, ext),
    )
}

fn new_result_with(alloc: Global, ext: Members) -> Result<String, Fail> {
    let session_id = owned(alloc, "s")?;
    let capabilities = value_of(
        alloc,
        r#"{"acceptInsecureCerts":true,"browserName":"b","browserVersion":"v","platformName":"p","setWindowRect":false,"userAgent":"u"}"#,
    )?;
    told(alloc, NewResult::new(session_id, capabilities, ext))
}

fn capabilities_with(alloc: Global, ext: Members) -> Result<String, Fail> {
    let browser = owned(alloc, "b")?;
    let version = owned(alloc, "v")?;
    let platform = owned(alloc, "p")?;
    let agent = owned(alloc, "u")?;
    told(
        alloc,
        Capabilities::new(true, browser, version, platform, false, agent, ext),
    )
}

fn subscribe_with(alloc: Global, ext: Members) -> Result<String, Fail> {
    let events = value_of(alloc, r#"["e"]"#)?;
    let contexts = Some(value_of(alloc, r#"["c"]"#)?);
    told(alloc, SubscribeParameters::new(events, contexts, None, ext))
}
