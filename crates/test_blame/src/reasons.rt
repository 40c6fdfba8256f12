//! Of a tree and a rule, whether it fits, or the reason why not.
use bidi_blame::{Name, Reason, blame, found_words, pointer, wanted};
use bidi_tree::outline_of;
use std::alloc::Global;
use std::test::Fail;
use testing::rows::{Asked, check_rows};
use testing::texts::tree_of;

/// The reason against the tree of a text, by the name of a rule.
struct Reasons;

impl Asked for Reasons {
    fn found(alloc: Global, word: &str, text: &str) -> Result<String, Fail> {
        let name = named(word)?;
        let tree = tree_of(alloc, text)?;
        let outline = outline_of(alloc, &tree)?;
        match blame(alloc, &outline, name)? {
            None => Ok(String::from_str(alloc, "fits")?),
            Some(reason) => told(alloc, &reason),
        }
    }
}

/// The rule of this name.
fn named(text: &str) -> Result<Name, Fail> {
    for name in Name::all() {
        if name.text() == text {
            return Ok(*name);
        }
    }
    Err(Fail::from("no such rule"))
}

/// `POINTER: wants WHAT, has WHAT (RULE)`
fn told(alloc: Global, reason: &Reason<'_, '_>) -> Result<String, Fail> {
    let place = pointer(alloc, &reason.steps)?;
    let wants = wanted(alloc, &reason.wants)?.text(alloc)?;
    let found = found_words(alloc, reason.found)?;
    let rule = reason.named.map_or("no rule", |name| name.text());
    Ok(format!(in alloc; "{place}: wants {wants}, has {found} ({rule})")?)
}

const BASE: &str = r#"
EmptyParams {} -> fits
EmptyParams {"x":[1,{"y":null}]} -> fits
EmptyParams [] -> : wants an object, has an empty array (EmptyParams)
EmptyParams {"x":1.5} -> /x: wants whole numbers in range and at most 60 levels, has a number with a fraction or out of range (EmptyParams)
EmptyParams {"a/b":{"m~n":1e2}} -> /a~1b/m~0n: wants whole numbers in range and at most 60 levels, has a number with a fraction or out of range (EmptyParams)
EmptyResult {"x":{"y":[1,-0]}} -> /x/y/1: wants whole numbers in range and at most 60 levels, has a number with a fraction or out of range (EmptyResult)
EmptyResult {"x":«60 [»«60 ]»} -> fits
EmptyResult {"x":«61 [»«61 ]»} -> /x: wants whole numbers in range and at most 60 levels, has an array of one item (EmptyResult)
EmptyResult {"x":«70 [»«70 ]»} -> /x: wants whole numbers in range and at most 60 levels, has an array of one item (EmptyResult)
EmptyResult {"x":[1,«70 [»«70 ]»]} -> /x: wants whole numbers in range and at most 60 levels, has an array of 2 items (EmptyResult)
"#;

#[test]
fn reasons_of_maps_that_name_nothing(rt: HostRuntime) -> Result<(), Fail> {
    check_rows::<Reasons>(rt.alloc(), BASE)
}

const MESSAGES: &str = r#"
Command {"id":1,"method":"session.status","params":{}} -> fits
Command 5 -> : wants an object, has 5 (Command)
Command {"method":"session.status","params":{}} -> /id: wants a whole number from 0 to 9007199254740991, has nothing (Command)
Command {"id":-1,"method":"session.status","params":{}} -> /id: wants a whole number from 0 to 9007199254740991, has -1 (Command)
Command {"id":1,"method":"page.open","params":{}} -> /method: wants "session.status" or "session.new" or "session.end" or "session.subscribe" or "session.unsubscribe" or "browsingContext.activate" or "browsingContext.close" or "browsingContext.create" or "browsingContext.getTree" or "browsingContext.navigate" or "browsingContext.reload" or "browsingContext.traverseHistory" or "script.evaluate" or "script.callFunction" or "script.disown" or "script.getRealms" or "browser.createUserContext" or "browser.getUserContexts" or "browser.removeUserContext", has "page.open" (Command)
Command {"id":1,"params":{}} -> /method: wants "session.status" or "session.new" or "session.end" or "session.subscribe" or "session.unsubscribe" or "browsingContext.activate" or "browsingContext.close" or "browsingContext.create" or "browsingContext.getTree" or "browsingContext.navigate" or "browsingContext.reload" or "browsingContext.traverseHistory" or "script.evaluate" or "script.callFunction" or "script.disown" or "script.getRealms" or "browser.createUserContext" or "browser.getUserContexts" or "browser.removeUserContext", has nothing (Command)
Command {"id":1,"method":"session.status"} -> /params: wants an object, has nothing (Command)
Command {"id":1,"method":"browsingContext.navigate","params":{"context":5,"url":"u"}} -> /params/context: wants a string, has 5 (NavigateParameters)
Command {"id":1,"method":"session.end","params":{},"x":1.5} -> /x: wants whole numbers in range and at most 60 levels, has a number with a fraction or out of range (Command)
Message {"type":"success","id":1,"result":{}} -> fits
Message [] -> : wants an object, has an empty array (Message)
Message {} -> /type: wants "success" or "error" or "event", has nothing (Message)
Message {"type":"answer"} -> /type: wants "success" or "error" or "event", has "answer" (Message)
Message {"type":"success","id":1} -> /result: wants an object, has nothing (CommandResponse)
Message {"type":"event","method":"network.responseCompleted","params":{}} -> /method: wants "browsingContext.contextCreated" or "browsingContext.contextDestroyed" or "browsingContext.navigationStarted" or "browsingContext.domContentLoaded" or "browsingContext.load" or "script.realmCreated" or "script.realmDestroyed" or "log.entryAdded", has "network.responseCompleted" (Event)
Message {"type":"event","method":"browsingContext.load"} -> /params: wants an object, has nothing (Event)
CommandResponse {"type":"success","id":1,"result":{"x":1.5}} -> /result/x: wants whole numbers in range and at most 60 levels, has a number with a fraction or out of range (CommandResponse)
CommandResponse {"type":"success","id":null,"result":{}} -> /id: wants a whole number from 0 to 9007199254740991, has null (CommandResponse)
ErrorResponse {"type":"error","id":"1","error":"unknown error","message":"m"} -> /id: wants a whole number from 0 to 9007199254740991 or null, has "1" (ErrorResponse)
ErrorResponse {"type":"error","id":1,"error":"unknown error"} -> /message: wants a string, has nothing (ErrorResponse)
ErrorCode "no such thing" -> : wants "invalid argument" or "invalid selector" or "invalid session id" or "move target out of bounds" or "no such alert" or "no such element" or "no such frame" or "no such handle" or "no such history entry" or "no such intercept" or "no such node" or "no such request" or "no such script" or "no such storage partition" or "no such user context" or "session not created" or "unable to capture screen" or "unable to close browser" or "unable to set cookie" or "unable to set file input" or "unknown command" or "unknown error" or "unsupported operation", has "no such thing" (ErrorCode)
Event {"type":"event","method":"browsingContext.load","params":{"context":"c","navigation":null,"timestamp":1.5,"url":"u"}} -> /params/timestamp: wants a whole number from 0 to 9007199254740991, has a number with a fraction or out of range (NavigationInfo)
"#;

#[test]
fn reasons_of_commands_and_messages(rt: HostRuntime) -> Result<(), Fail> {
    check_rows::<Reasons>(rt.alloc(), MESSAGES)
}

const SESSION: &str = r#"
StatusResult {"ready":1,"message":"m"} -> /ready: wants true or false, has 1 (StatusResult)
NewParameters {} -> /capabilities: wants an object, has nothing (NewParameters)
NewParameters {"capabilities":[]} -> /capabilities: wants an object, has an empty array (CapabilitiesRequest)
CapabilitiesRequest {"firstMatch":{}} -> /firstMatch: wants an array, has an empty object (CapabilitiesRequest)
CapabilitiesRequest {"firstMatch":[{},{"browserName":5}]} -> /firstMatch/1/browserName: wants a string, has 5 (CapabilityRequest)
CapabilityRequest {"acceptInsecureCerts":"yes"} -> /acceptInsecureCerts: wants true or false, has "yes" (CapabilityRequest)
NewResult {"sessionId":"s"} -> /capabilities: wants an object, has nothing (NewResult)
Capabilities {"acceptInsecureCerts":true,"browserName":"b","browserVersion":"v","platformName":"p","setWindowRect":true} -> /userAgent: wants a string, has nothing (Capabilities)
SubscribeParameters {"events":[]} -> /events: wants an array with at least one item, has an empty array (SubscribeParameters)
SubscribeParameters {"events":["a",5]} -> /events/1: wants a string, has 5 (SubscribeParameters)
SubscribeResult {"subscription":null} -> /subscription: wants a string, has null (SubscribeResult)
UnsubscribeParameters {"events":[]} -> /events: wants an array with at least one item, has an empty array (UnsubscribeByEvents)
UnsubscribeParameters {} -> : wants an object, has an empty object (UnsubscribeParameters)
UnsubscribeById {} -> /subscriptions: wants an array with at least one item, has nothing (UnsubscribeById)
UnsubscribeByEvents {"events":null} -> /events: wants an array with at least one item, has null (UnsubscribeByEvents)
"#;

#[test]
fn reasons_of_the_module_session(rt: HostRuntime) -> Result<(), Fail> {
    check_rows::<Reasons>(rt.alloc(), SESSION)
}

const BROWSING_CONTEXT: &str = r#"
Info {"clientWindow":"w","context":"c","originalOpener":null,"url":"u","userContext":"default"} -> /children: wants an array or null, has nothing (Info)
Info {"children":[{"children":null,"clientWindow":"w","context":"c","originalOpener":null,"url":"u","userContext":"default","parent":5}],"clientWindow":"w","context":"c","originalOpener":null,"url":"u","userContext":"default"} -> /children/0/parent: wants a string or null, has 5 (Info)
Info {"children":«30 [{"children":»[]«30 ,"clientWindow":"w","context":"c","originalOpener":null,"url":"u","userContext":"default"}]»,"clientWindow":"w","context":"c","originalOpener":null,"url":"u","userContext":"default"} -> : wants at most 60 levels, has an object of 6 members (Info)
NavigationInfo {"context":"c","navigation":5,"timestamp":1,"url":"u"} -> /navigation: wants a string or null, has 5 (NavigationInfo)
Wait "eager" -> : wants "none" or "interactive" or "complete", has "eager" (Wait)
ActivateParameters {"context":{}} -> /context: wants a string, has an empty object (ActivateParameters)
CloseParameters {"context":"c","promptUnload":null} -> /promptUnload: wants true or false, has null (CloseParameters)
CreateParameters {"type":"popup"} -> /type: wants "tab" or "window", has "popup" (CreateParameters)
CreateResult {} -> /context: wants a string, has nothing (CreateResult)
GetTreeParameters {"maxDepth":9007199254740992} -> /maxDepth: wants a whole number from 0 to 9007199254740991, has a number with a fraction or out of range (GetTreeParameters)
GetTreeParameters {"maxDepth":null} -> /maxDepth: wants a whole number from 0 to 9007199254740991, has null (GetTreeParameters)
GetTreeResult {"contexts":[{}]} -> /contexts/0/children: wants an array or null, has nothing (Info)
NavigateParameters {"context":"c","url":"u","wait":"eager"} -> /wait: wants "none" or "interactive" or "complete", has "eager" (Wait)
ReloadParameters {"context":"c","ignoreCache":0} -> /ignoreCache: wants true or false, has 0 (ReloadParameters)
NavigateResult {"navigation":null} -> /url: wants a string, has nothing (NavigateResult)
TraverseHistoryParameters {"context":"c","delta":0.5} -> /delta: wants a whole number from -9007199254740991 to 9007199254740991, has a number with a fraction or out of range (TraverseHistoryParameters)
"#;

#[test]
fn reasons_of_the_module_browsing_context(rt: HostRuntime) -> Result<(), Fail> {
    check_rows::<Reasons>(rt.alloc(), BROWSING_CONTEXT)
}

const SCRIPT: &str = r#"
Target {} -> : wants an object, has an empty object (Target)
Target {"context":5} -> /context: wants a string, has 5 (ContextTarget)
Target {"realm":null} -> /realm: wants a string, has null (RealmTarget)
Target {"context":5,"realm":6} -> : wants an object, has an object of 2 members (Target)
ContextTarget {"context":"c","sandbox":null} -> /sandbox: wants a string, has null (ContextTarget)
RealmTarget {} -> /realm: wants a string, has nothing (RealmTarget)
Ownership true -> : wants "root" or "none", has true (Ownership)
SerializationOptions {"maxObjectDepth":"1"} -> /maxObjectDepth: wants a whole number from 0 to 9007199254740991 or null, has "1" (SerializationOptions)
SerializationOptions {"maxObjectDepth":-1} -> /maxObjectDepth: wants a whole number from 0 to 9007199254740991 or null, has -1 (SerializationOptions)
SerializationOptions {"maxObjectDepth":1.5} -> /maxObjectDepth: wants a whole number from 0 to 9007199254740991 or null, has a number with a fraction or out of range (SerializationOptions)
SerializationOptions {"maxObjectDepth":null} -> fits
SerializationOptions {"maxObjectDepth":0,"x":1.5} -> /x: wants whole numbers in range and at most 60 levels, has a number with a fraction or out of range (SerializationOptions)
SerializationOptions 5 -> : wants an object, has 5 (SerializationOptions)
EvaluateParameters {"expression":"e","target":{"context":"c"}} -> /awaitPromise: wants true or false, has nothing (EvaluateParameters)
EvaluateParameters {"expression":"e","target":{"context":"c"},"awaitPromise":true,"serializationOptions":{"maxObjectDepth":1}} -> fits
EvaluateParameters {"expression":"e","target":{"context":"c"},"awaitPromise":true,"serializationOptions":{"maxObjectDepth":"1"}} -> /serializationOptions/maxObjectDepth: wants a whole number from 0 to 9007199254740991 or null, has "1" (SerializationOptions)
EvaluateParameters {"expression":"e","target":{"context":"c"},"awaitPromise":true,"serializationOptions":{"maxObjectDepth":-1}} -> /serializationOptions/maxObjectDepth: wants a whole number from 0 to 9007199254740991 or null, has -1 (SerializationOptions)
EvaluateParameters {"expression":"e","target":{"context":"c"},"awaitPromise":true,"serializationOptions":{"maxObjectDepth":1.5}} -> /serializationOptions/maxObjectDepth: wants a whole number from 0 to 9007199254740991 or null, has a number with a fraction or out of range (SerializationOptions)
EvaluateParameters {"expression":"e","target":{"context":"c"},"awaitPromise":true,"serializationOptions":5} -> /serializationOptions: wants an object, has 5 (SerializationOptions)
EvaluateParameters {"expression":"e","target":{"context":"c"},"awaitPromise":true,"serializationOptions":null} -> /serializationOptions: wants an object, has null (SerializationOptions)
EvaluateParameters {"expression":"e","target":{"context":"c"},"awaitPromise":true,"userActivation":0,"serializationOptions":[],"resultOwnership":"none"} -> /serializationOptions: wants an object, has an empty array (SerializationOptions)
EvaluateParameters {"expression":"e","target":{"context":"c"},"awaitPromise":true,"serializationOptions":5,"resultOwnership":"all"} -> /resultOwnership: wants "root" or "none", has "all" (Ownership)
CallFunctionParameters {"functionDeclaration":"f","awaitPromise":true,"target":{"context":"c"},"arguments":[{"type":"number","value":1.5}]} -> /arguments/0/value: wants a whole number from -9007199254740991 to 9007199254740991 or "NaN" or "-0" or "Infinity" or "-Infinity", has a number with a fraction or out of range (Primitive)
CallFunctionParameters {"functionDeclaration":"f","awaitPromise":true,"target":{"context":"c"},"serializationOptions":{"maxObjectDepth":1}} -> fits
CallFunctionParameters {"functionDeclaration":"f","awaitPromise":true,"target":{"context":"c"},"serializationOptions":{"maxObjectDepth":"1"}} -> /serializationOptions/maxObjectDepth: wants a whole number from 0 to 9007199254740991 or null, has "1" (SerializationOptions)
CallFunctionParameters {"functionDeclaration":"f","awaitPromise":true,"target":{"context":"c"},"serializationOptions":{"maxObjectDepth":-1}} -> /serializationOptions/maxObjectDepth: wants a whole number from 0 to 9007199254740991 or null, has -1 (SerializationOptions)
CallFunctionParameters {"functionDeclaration":"f","awaitPromise":true,"target":{"context":"c"},"serializationOptions":{"maxObjectDepth":1.5}} -> /serializationOptions/maxObjectDepth: wants a whole number from 0 to 9007199254740991 or null, has a number with a fraction or out of range (SerializationOptions)
CallFunctionParameters {"functionDeclaration":"f","awaitPromise":true,"target":{"context":"c"},"serializationOptions":5} -> /serializationOptions: wants an object, has 5 (SerializationOptions)
CallFunctionParameters {"functionDeclaration":"f","awaitPromise":true,"target":{"context":"c"},"serializationOptions":null} -> /serializationOptions: wants an object, has null (SerializationOptions)
CallFunctionParameters {"functionDeclaration":"f","awaitPromise":true,"target":{"context":"c"},"this":5,"serializationOptions":[],"resultOwnership":"none"} -> /serializationOptions: wants an object, has an empty array (SerializationOptions)
DisownParameters {"handles":"h","target":{"realm":"r"}} -> /handles: wants an array, has "h" (DisownParameters)
GetRealmsParameters {"type":"tab"} -> /type: wants "window" or "dedicated-worker" or "shared-worker" or "service-worker" or "worker" or "paint-worklet" or "audio-worklet" or "worklet", has "tab" (RealmType)
RealmType false -> : wants "window" or "dedicated-worker" or "shared-worker" or "service-worker" or "worker" or "paint-worklet" or "audio-worklet" or "worklet", has false (RealmType)
GetRealmsResult {"realms":null} -> /realms: wants an array, has null (GetRealmsResult)
RealmInfo {"realm":"r","origin":"o","type":"worker","context":"c"} -> /type: wants "window", has "worker" (RealmInfo)
RealmDestroyedParameters {"realm":[1,2]} -> /realm: wants a string, has an array of 2 items (RealmDestroyedParameters)
Primitive {"type":"string"} -> /value: wants a string, has nothing (Primitive)
Primitive {"type":"null","value":null} -> /value: wants nothing, has null (Primitive)
Primitive {"type":"symbol"} -> /type: wants "undefined" or "null" or "string" or "number" or "boolean" or "bigint", has "symbol" (Primitive)
RegExpValue {"pattern":"p","flags":"g","x":1} -> /x: wants nothing, has 1 (RegExpValue)
Reference {"sharedId":5} -> /sharedId: wants a string, has 5 (SharedReference)
SharedReference {"sharedId":"s","handle":null} -> /handle: wants a string, has null (SharedReference)
RemoteObjectReference {"sharedId":"s"} -> /handle: wants a string, has nothing (RemoteObjectReference)
LocalValue {"type":"symbol"} -> /type: wants "undefined" or "null" or "string" or "number" or "boolean" or "bigint" or "array" or "date" or "map" or "object" or "regexp" or "set", has "symbol" (LocalValue)
LocalValue {} -> : wants Reference or Primitive or an object, has an empty object (LocalValue)
LocalValue {"type":"array","value":[{"type":"null"},{"type":"array","value":5}]} -> /value/1/value: wants an array, has 5 (LocalValue)
LocalValue {"type":"object","value":[["k"]]} -> /value/0: wants an array of two items, has an array of one item (LocalPair)
LocalValue «30 {"type":"array","value":[»«30 ]}» -> fits
LocalValue «31 {"type":"array","value":[»«31 ]}» -> : wants at most 60 levels, has an object of 2 members (LocalValue)
LocalValue «35 {"type":"array","value":[»«35 ]}» -> : wants at most 60 levels, has an object of 2 members (LocalValue)
LocalPair ["k"] -> : wants an array of two items, has an array of one item (LocalPair)
LocalPair [5,{"type":"null"}] -> /0: wants an object or a string, has 5 (LocalPair)
LocalPair ["k",{"type":"string","value":5}] -> /1/value: wants a string, has 5 (Primitive)
RemoteValue {"type":"array","handle":5} -> /handle: wants a string, has 5 (RemoteValue)
RemoteValue {"type":"date"} -> /value: wants a string, has nothing (RemoteValue)
RemoteValue {"type":"symbol","value":1} -> /value: wants nothing, has 1 (RemoteValue)
RemotePair [{"type":"null"},"v"] -> /1: wants an object, has "v" (RemoteValue)
Opaque "array" -> : wants "symbol" or "function" or "weakmap" or "weakset" or "generator" or "error" or "proxy" or "promise" or "typedarray" or "arraybuffer", has "array" (Opaque)
EvaluateResult {"type":"success","realm":"r"} -> /result: wants RemoteValue, has nothing (EvaluateResult)
EvaluateResult {"type":"success","result":{"type":"undefined"},"realm":"r","x":1} -> /x: wants nothing, has 1 (EvaluateResult)
ExceptionDetails {"columnNumber":-1,"exception":{"type":"error"},"lineNumber":0,"stackTrace":{"callFrames":[]},"text":"t"} -> /columnNumber: wants a whole number from 0 to 9007199254740991, has -1 (ExceptionDetails)
StackTrace {} -> /callFrames: wants an array, has nothing (StackTrace)
StackFrame {"columnNumber":0,"functionName":"f","lineNumber":0} -> /url: wants a string, has nothing (StackFrame)
Source {"realm":"r","context":"c","userContext":"u"} -> /userContext: wants nothing, has "u" (Source)
"#;

#[test]
fn reasons_of_the_module_script(rt: HostRuntime) -> Result<(), Fail> {
    check_rows::<Reasons>(rt.alloc(), SCRIPT)
}

const TABLE: &str = r#"
TableRow {"text":"t","argument":-1} -> /argument: wants a whole number from 0 to 9007199254740991, has -1 (TableRow)
TableRow {"text":"t"} -> : wants an object, has an object of one member (TableRow)
"#;

#[test]
fn reasons_of_the_table_of_a_play(rt: HostRuntime) -> Result<(), Fail> {
    check_rows::<Reasons>(rt.alloc(), TABLE)
}

const LOG: &str = r#"
LogEntry {"level":"info","source":{"realm":"r","userContext":"u"},"text":"t","timestamp":1,"type":"console","method":"log","args":[]} -> /source/userContext: wants nothing, has "u" (Source)
LogEntry {"level":"info","source":{"realm":"r"},"text":"t","timestamp":1} -> /type: wants "console" or "javascript" or a string, has nothing (LogEntry)
ConsoleEntry {"level":"log","source":{"realm":"r"},"text":"t","timestamp":1,"type":"console","method":"log","args":[]} -> /level: wants "debug" or "info" or "warn" or "error", has "log" (ConsoleEntry)
JavascriptEntry {"level":"info","source":{"realm":"r"},"text":null,"timestamp":1,"type":"javascript","x":1} -> /x: wants nothing, has 1 (JavascriptEntry)
GenericLogEntry {"level":"info","source":{"realm":"r"},"text":5,"timestamp":1,"type":"t"} -> /text: wants a string or null, has 5 (GenericLogEntry)
"#;

#[test]
fn reasons_of_the_module_log(rt: HostRuntime) -> Result<(), Fail> {
    check_rows::<Reasons>(rt.alloc(), LOG)
}

const BROWSER: &str = r#"
UserContextInfo {"userContext":"u","x":1} -> fits
UserContextInfo {"userContext":null} -> /userContext: wants a string, has null (UserContextInfo)
GetUserContextsResult {"userContexts":[]} -> /userContexts: wants an array with at least one item, has an empty array (GetUserContextsResult)
GetUserContextsResult {"userContexts":[{"userContext":"u"},{}]} -> /userContexts/1/userContext: wants a string, has nothing (UserContextInfo)
RemoveUserContextParameters {} -> /userContext: wants a string, has nothing (RemoveUserContextParameters)
"#;

#[test]
fn reasons_of_the_module_browser(rt: HostRuntime) -> Result<(), Fail> {
    check_rows::<Reasons>(rt.alloc(), BROWSER)
}
