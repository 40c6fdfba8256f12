//! Texts of clients, eased and then taken by a remote end.
use bidi_lenient::{Eased, ease};
use bidi_remote::{RemoteEnd, Sent, Step};
use bidi_tree::JsUint;
use std::alloc::Global;
use std::test::Fail;
use testing::rows::{Asked, check_rows};

/// What becomes of a text of a client.
struct Client;

impl Asked for Client {
    fn found(alloc: Global, word: &str, text: &str) -> Result<String, Fail> {
        match word {
            "eased" => eased(alloc, text),
            "told" => told(alloc, text),
            "strict" => sent(alloc, text),
            "lenient" => sent(alloc, handed_on(alloc, text)?.as_str()),
            "strict-in-session" => sent_in_session(alloc, text),
            "lenient-in-session" => sent_in_session(alloc, handed_on(alloc, text)?.as_str()),
            _ => Err(Fail::from("no such word")),
        }
    }
}

/// The first texts of Selenium and of Puppeteer, what else goes beyond the profile, and what stays as it comes.
const TEXTS: &str = r#"
eased {"id":1,"method":"session.new","params":{"capabilities":{"alwaysMatch":{"webSocketUrl":true,"browserName":"firefox","acceptInsecureCerts":true,"unhandledPromptBehavior":{"default":"ignore"}}}}} -> {"id":1,"method":"session.new","params":{"capabilities":{"alwaysMatch":{}}}}
told {"id":1,"method":"session.new","params":{"capabilities":{"alwaysMatch":{"webSocketUrl":true,"browserName":"firefox","acceptInsecureCerts":true,"unhandledPromptBehavior":{"default":"ignore"}}}}} -> left out capability acceptInsecureCerts, left out capability browserName, left out capability unhandledPromptBehavior, left out capability webSocketUrl
strict {"id":1,"method":"session.new","params":{"capabilities":{"alwaysMatch":{"webSocketUrl":true,"browserName":"firefox","acceptInsecureCerts":true,"unhandledPromptBehavior":{"default":"ignore"}}}}} -> {"error":"invalid argument","id":1,"message":"invalid argument","type":"error"}
lenient {"id":1,"method":"session.new","params":{"capabilities":{"alwaysMatch":{"webSocketUrl":true,"browserName":"firefox","acceptInsecureCerts":true,"unhandledPromptBehavior":{"default":"ignore"}}}}} -> {"id":1,"result":{"capabilities":{"acceptInsecureCerts":false,"browserName":"memory-browser","browserVersion":"1.0","platformName":"none","setWindowRect":false,"userAgent":"memory-browser/1.0"},"sessionId":"00000000-0001-8000-8000-000000000001"},"type":"success"}
eased {"id":1,"method":"session.new","params":{"capabilities":{"alwaysMatch":{"acceptInsecureCerts":false,"unhandledPromptBehavior":{"default":"ignore"},"webSocketUrl":true,"goog:prerenderingDisabled":true,"goog:disableNetworkDurableMessages":true}}}} -> {"id":1,"method":"session.new","params":{"capabilities":{"alwaysMatch":{"goog:disableNetworkDurableMessages":true,"goog:prerenderingDisabled":true}}}}
told {"id":1,"method":"session.new","params":{"capabilities":{"alwaysMatch":{"acceptInsecureCerts":false,"unhandledPromptBehavior":{"default":"ignore"},"webSocketUrl":true,"goog:prerenderingDisabled":true,"goog:disableNetworkDurableMessages":true}}}} -> left out capability acceptInsecureCerts, left out capability unhandledPromptBehavior, left out capability webSocketUrl
strict {"id":1,"method":"session.new","params":{"capabilities":{"alwaysMatch":{"acceptInsecureCerts":false,"unhandledPromptBehavior":{"default":"ignore"},"webSocketUrl":true,"goog:prerenderingDisabled":true,"goog:disableNetworkDurableMessages":true}}}} -> {"error":"invalid argument","id":1,"message":"invalid argument","type":"error"}
lenient {"id":1,"method":"session.new","params":{"capabilities":{"alwaysMatch":{"acceptInsecureCerts":false,"unhandledPromptBehavior":{"default":"ignore"},"webSocketUrl":true,"goog:prerenderingDisabled":true,"goog:disableNetworkDurableMessages":true}}}} -> {"id":1,"result":{"capabilities":{"acceptInsecureCerts":false,"browserName":"memory-browser","browserVersion":"1.0","platformName":"none","setWindowRect":false,"userAgent":"memory-browser/1.0"},"sessionId":"00000000-0001-8000-8000-000000000001"},"type":"success"}
eased {"id":2,"method":"session.subscribe","params":{"events":["browsingContext","network","log","script"]}} -> stays
told {"id":2,"method":"session.subscribe","params":{"events":["browsingContext","network","log","script"]}} -> held module network
strict-in-session {"id":2,"method":"session.subscribe","params":{"events":["browsingContext","network","log","script"]}} -> {"error":"invalid argument","id":2,"message":"invalid argument","type":"error"}
eased {"id":2,"method":"session.subscribe","params":{"events":["browsingContext.contextCreated","network.beforeRequestSent","log.entryAdded"]}} -> stays
told {"id":2,"method":"session.subscribe","params":{"events":["browsingContext.contextCreated","network.beforeRequestSent","log.entryAdded"]}} -> held event network.beforeRequestSent
strict-in-session {"id":2,"method":"session.subscribe","params":{"events":["browsingContext.contextCreated","network.beforeRequestSent","log.entryAdded"]}} -> {"error":"invalid argument","id":2,"message":"invalid argument","type":"error"}
all modules | eased {"id":2,"method":"session.subscribe","params":{"events":["network","input","storage","emulation","webExtension"]}} -> stays
all modules | told {"id":2,"method":"session.subscribe","params":{"events":["network","input","storage","emulation","webExtension"]}} -> held module network, held module input, held module storage, held module emulation, held module webExtension
all modules | strict-in-session {"id":2,"method":"session.subscribe","params":{"events":["network","input","storage","emulation","webExtension"]}} -> {"error":"invalid argument","id":2,"message":"invalid argument","type":"error"}
all events | eased {"id":2,"method":"session.subscribe","params":{"events":["browsingContext.fragmentNavigated","browsingContext.historyUpdated","browsingContext.downloadWillBegin","browsingContext.downloadEnd","browsingContext.navigationAborted","browsingContext.navigationCommitted","browsingContext.navigationFailed","browsingContext.userPromptOpened","browsingContext.userPromptClosed","network.authRequired","network.beforeRequestSent","network.fetchError","network.responseCompleted","network.responseStarted","script.message","input.fileDialogOpened"]}} -> stays
all events | told {"id":2,"method":"session.subscribe","params":{"events":["browsingContext.fragmentNavigated","browsingContext.historyUpdated","browsingContext.downloadWillBegin","browsingContext.downloadEnd","browsingContext.navigationAborted","browsingContext.navigationCommitted","browsingContext.navigationFailed","browsingContext.userPromptOpened","browsingContext.userPromptClosed","network.authRequired","network.beforeRequestSent","network.fetchError","network.responseCompleted","network.responseStarted","script.message","input.fileDialogOpened"]}} -> held event browsingContext.fragmentNavigated, held event browsingContext.historyUpdated, held event browsingContext.downloadWillBegin, held event browsingContext.downloadEnd, held event browsingContext.navigationAborted, held event browsingContext.navigationCommitted, held event browsingContext.navigationFailed, held event browsingContext.userPromptOpened, held event browsingContext.userPromptClosed, held event network.authRequired, held event network.beforeRequestSent, held event network.fetchError, held event network.responseCompleted, held event network.responseStarted, held event script.message, held event input.fileDialogOpened
the profile's own names | eased,told {"id":2,"method":"session.subscribe","params":{"events":["session","browsingContext","script","log","browser","browsingContext.contextCreated","browsingContext.contextDestroyed","browsingContext.navigationStarted","browsingContext.domContentLoaded","browsingContext.load","script.realmCreated","script.realmDestroyed","log.entryAdded"]}} -> as it came
unknown names are held | eased {"id":2,"method":"session.subscribe","params":{"events":["network.nope","nope","a:b.c-d_9"]}} -> stays
unknown names are held | told {"id":2,"method":"session.subscribe","params":{"events":["network.nope","nope","a:b.c-d_9","."]}} -> held event network.nope, held module nope, held event a:b.c-d_9, held event .
no names | eased,told {"id":2,"method":"session.subscribe","params":{"events":["","*","a b","a/b","é","a\n","a\u0000"]}} -> as it came
a name of 255 bytes | told {"id":2,"method":"session.subscribe","params":{"events":["«255 a»"]}} -> held module «255 a»
a name of 256 bytes | told {"id":2,"method":"session.subscribe","params":{"events":["«256 a»"]}} -> as it came
names that nearly are the profile's | told {"id":2,"method":"session.subscribe","params":{"events":["Log","logs","log.","log.entryadded","browser.close"]}} -> held module Log, held module logs, held event log., held event log.entryadded, held event browser.close
an item that is no text | told {"id":2,"method":"session.subscribe","params":{"events":["network",5,["input"]]}} -> held module network
a name that comes twice | told {"id":2,"method":"session.subscribe","params":{"events":["log","network","log","network"]}} -> held module network, held module network
a subscription with contexts | told {"params":{"events":["log","network"],"contexts":["c"],"userContexts":["u"]},"method":"session.subscribe","id":2} -> held module network
the last of two members | told {"id":2,"method":"session.subscribe","params":{"events":["input"],"events":["log","network"]}} -> held module network
first and always | eased {"id":1,"method":"session.new","params":{"capabilities":{"alwaysMatch":{"proxy":{"proxyType":"direct"},"a:b":[]},"firstMatch":[{"timeouts":{"script":1}},{"setWindowRect":true,"nope":0},7],"x":{"proxy":1}}}} -> {"id":1,"method":"session.new","params":{"capabilities":{"alwaysMatch":{"a:b":[]},"firstMatch":[{},{"nope":0},7],"x":{"proxy":1}}}}
first and always | told {"id":1,"method":"session.new","params":{"capabilities":{"alwaysMatch":{"proxy":{"proxyType":"direct"},"a:b":[]},"firstMatch":[{"timeouts":{"script":1}},{"setWindowRect":true,"nope":0},7],"x":{"proxy":1}}}} -> left out capability proxy, left out capability timeouts, left out capability setWindowRect
every capability | eased {"id":1,"method":"session.new","params":{"capabilities":{"firstMatch":[{"webSocketUrl":false,"unhandledPromptBehavior":"accept","proxy":{},"timeouts":{},"pageLoadStrategy":"none","setWindowRect":false,"acceptInsecureCerts":true,"browserName":"b","platformName":"","browserVersion":"1","strictFileInteractability":true}]}}} -> {"id":1,"method":"session.new","params":{"capabilities":{"firstMatch":[{}]}}}
every capability | told {"id":1,"method":"session.new","params":{"capabilities":{"firstMatch":[{"webSocketUrl":false,"unhandledPromptBehavior":"accept","proxy":{},"timeouts":{},"pageLoadStrategy":"none","setWindowRect":false,"acceptInsecureCerts":true,"browserName":"b","platformName":"","browserVersion":"1","strictFileInteractability":true}]}}} -> left out capability acceptInsecureCerts, left out capability browserName, left out capability browserVersion, left out capability pageLoadStrategy, left out capability platformName, left out capability proxy, left out capability setWindowRect, left out capability strictFileInteractability, left out capability timeouts, left out capability unhandledPromptBehavior, left out capability webSocketUrl
every capability | lenient {"id":1,"method":"session.new","params":{"capabilities":{"firstMatch":[{"webSocketUrl":false,"unhandledPromptBehavior":"accept","proxy":{},"timeouts":{},"pageLoadStrategy":"none","setWindowRect":false,"acceptInsecureCerts":true,"browserName":"b","platformName":"","browserVersion":"1","strictFileInteractability":true}]}}} -> {"id":1,"result":{"capabilities":{"acceptInsecureCerts":false,"browserName":"memory-browser","browserVersion":"1.0","platformName":"none","setWindowRect":false,"userAgent":"memory-browser/1.0"},"sessionId":"00000000-0001-8000-8000-000000000001"},"type":"success"}
a capability of another kind | eased,told {"id":1,"method":"session.new","params":{"capabilities":{"alwaysMatch":{"webSocketUrl":"x"}}}} -> as it came
a capability of another kind | eased,told {"id":1,"method":"session.new","params":{"capabilities":{"alwaysMatch":{"webSocketUrl":null}}}} -> as it came
a capability of another kind | eased,told {"id":1,"method":"session.new","params":{"capabilities":{"alwaysMatch":{"webSocketUrl":{}}}}} -> as it came
a capability of another kind | eased,told {"id":1,"method":"session.new","params":{"capabilities":{"alwaysMatch":{"acceptInsecureCerts":1}}}} -> as it came
a capability of another kind | eased,told {"id":1,"method":"session.new","params":{"capabilities":{"alwaysMatch":{"setWindowRect":"true"}}}} -> as it came
a capability of another kind | eased,told {"id":1,"method":"session.new","params":{"capabilities":{"alwaysMatch":{"strictFileInteractability":[]}}}} -> as it came
a capability of another kind | eased,told {"id":1,"method":"session.new","params":{"capabilities":{"alwaysMatch":{"browserName":2}}}} -> as it came
a capability of another kind | eased,told {"id":1,"method":"session.new","params":{"capabilities":{"alwaysMatch":{"browserName":true}}}} -> as it came
a capability of another kind | eased,told {"id":1,"method":"session.new","params":{"capabilities":{"alwaysMatch":{"browserVersion":{}}}}} -> as it came
a capability of another kind | eased,told {"id":1,"method":"session.new","params":{"capabilities":{"alwaysMatch":{"platformName":[]}}}} -> as it came
a capability of another kind | eased,told {"id":1,"method":"session.new","params":{"capabilities":{"alwaysMatch":{"pageLoadStrategy":null}}}} -> as it came
a capability of another kind | eased,told {"id":1,"method":"session.new","params":{"capabilities":{"alwaysMatch":{"proxy":"direct"}}}} -> as it came
a capability of another kind | eased,told {"id":1,"method":"session.new","params":{"capabilities":{"alwaysMatch":{"proxy":[]}}}} -> as it came
a capability of another kind | eased,told {"id":1,"method":"session.new","params":{"capabilities":{"alwaysMatch":{"timeouts":1}}}} -> as it came
a capability of another kind | eased,told {"id":1,"method":"session.new","params":{"capabilities":{"alwaysMatch":{"timeouts":null}}}} -> as it came
a capability of another kind | eased,told {"id":1,"method":"session.new","params":{"capabilities":{"alwaysMatch":{"unhandledPromptBehavior":true}}}} -> as it came
a capability of another kind | eased,told {"id":1,"method":"session.new","params":{"capabilities":{"alwaysMatch":{"unhandledPromptBehavior":["accept"]}}}} -> as it came
a capability of another kind | eased,told {"id":1,"method":"session.new","params":{"capabilities":{"alwaysMatch":{"unhandledPromptBehavior":null}}}} -> as it came
a capability of another kind is refused | lenient {"id":1,"method":"session.new","params":{"capabilities":{"alwaysMatch":{"webSocketUrl":"x"}}}} -> {"error":"invalid argument","id":1,"message":"invalid argument","type":"error"}
a capability of another kind is refused | lenient {"id":1,"method":"session.new","params":{"capabilities":{"alwaysMatch":{"proxy":"direct"}}}} -> {"error":"invalid argument","id":1,"message":"invalid argument","type":"error"}
a capability of another kind is refused | lenient {"id":1,"method":"session.new","params":{"capabilities":{"alwaysMatch":{"acceptInsecureCerts":1}}}} -> {"error":"invalid argument","id":1,"message":"invalid argument","type":"error"}
a capability of another kind is refused | lenient {"id":1,"method":"session.new","params":{"capabilities":{"alwaysMatch":{"unhandledPromptBehavior":true}}}} -> {"error":"invalid argument","id":1,"message":"invalid argument","type":"error"}
the others are left out | eased {"id":1,"method":"session.new","params":{"capabilities":{"alwaysMatch":{"proxy":[],"webSocketUrl":true}}}} -> {"id":1,"method":"session.new","params":{"capabilities":{"alwaysMatch":{"proxy":[]}}}}
nothing is left out | eased,told {"id":1,"method":"session.new","params":{"capabilities":{}}} -> as it came
nothing is left out | eased,told {"id":1,"method":"session.new","params":{"capabilities":{"alwaysMatch":{"a:b":1,"nope":2},"firstMatch":[{}]}}} -> as it came
capabilities elsewhere | eased,told {"id":1,"method":"session.new","webSocketUrl":true,"params":{"webSocketUrl":true,"capabilities":{"webSocketUrl":true,"alwaysMatch":{"a:b":{"webSocketUrl":true}}}}} -> as it came
parts of other kinds | eased,told {"id":1,"method":"session.new","params":{"capabilities":{"alwaysMatch":["webSocketUrl"],"firstMatch":{"webSocketUrl":true}}}} -> as it came
parts of other kinds | eased,told {"id":1,"method":"session.new","params":{"capabilities":["webSocketUrl"]}} -> as it came
parts of other kinds | eased,told {"id":2,"method":"session.subscribe","params":{"events":"network"}} -> as it came
parts of other kinds | eased,told {"id":2,"method":["session.subscribe"],"params":{"events":["network"]}} -> as it came
no params | eased,told {"id":2,"method":"session.subscribe"} -> as it came
a sandbox | eased {"id":3,"method":"script.evaluate","params":{"awaitPromise":true,"expression":"1 + 1","target":{"context":"00000000-0002-8000-8000-000000000001","sandbox":"__puppeteer_internal_24.1.0"}}} -> {"id":3,"method":"script.evaluate","params":{"awaitPromise":true,"expression":"1 + 1","target":{"context":"00000000-0002-8000-8000-000000000001"}}}
a sandbox | told {"id":3,"method":"script.evaluate","params":{"awaitPromise":true,"expression":"1 + 1","target":{"context":"00000000-0002-8000-8000-000000000001","sandbox":"__puppeteer_internal_24.1.0"}}} -> left out sandbox __puppeteer_internal_24.1.0
a sandbox | eased {"id":3,"method":"script.callFunction","params":{"awaitPromise":false,"functionDeclaration":"() => 1","target":{"context":"00000000-0002-8000-8000-000000000001","sandbox":"__puppeteer_internal_24.1.0"}}} -> {"id":3,"method":"script.callFunction","params":{"awaitPromise":false,"functionDeclaration":"() => 1","target":{"context":"00000000-0002-8000-8000-000000000001"}}}
a sandbox | told {"id":3,"method":"script.callFunction","params":{"awaitPromise":false,"functionDeclaration":"() => 1","target":{"context":"00000000-0002-8000-8000-000000000001","sandbox":"__puppeteer_internal_24.1.0"}}} -> left out sandbox __puppeteer_internal_24.1.0
a sandbox | eased {"id":3,"method":"script.disown","params":{"handles":[],"target":{"context":"00000000-0002-8000-8000-000000000001","sandbox":"s"}}} -> {"id":3,"method":"script.disown","params":{"handles":[],"target":{"context":"00000000-0002-8000-8000-000000000001"}}}
a sandbox | told {"id":3,"method":"script.disown","params":{"handles":[],"target":{"context":"00000000-0002-8000-8000-000000000001","sandbox":"s"}}} -> left out sandbox s
a sandbox | strict-in-session {"id":3,"method":"script.disown","params":{"handles":[],"target":{"context":"00000000-0002-8000-8000-000000000001","sandbox":"s"}}} -> {"error":"unsupported operation","id":3,"message":"unsupported operation","type":"error"}
a sandbox | lenient-in-session {"id":3,"method":"script.disown","params":{"handles":[],"target":{"context":"00000000-0002-8000-8000-000000000001","sandbox":"s"}}} -> {"id":3,"result":{},"type":"success"}
a sandbox beside a realm | eased {"id":3,"method":"script.disown","params":{"handles":[],"target":{"realm":"r","sandbox":"s"}}} -> {"id":3,"method":"script.disown","params":{"handles":[],"target":{"realm":"r"}}}
a sandbox whose name is no name | told {"id":3,"method":"script.disown","params":{"handles":[],"target":{"context":"00000000-0002-8000-8000-000000000001","sandbox":"a b"}}} -> left out a sandbox
a sandbox whose name is no name | told {"id":3,"method":"script.disown","params":{"handles":[],"target":{"context":"00000000-0002-8000-8000-000000000001","sandbox":"a\nbidi: left out sandbox b"}}} -> left out a sandbox
a sandbox whose name is no name | eased {"id":3,"method":"script.disown","params":{"handles":[],"target":{"context":"00000000-0002-8000-8000-000000000001","sandbox":"a b"}}} -> {"id":3,"method":"script.disown","params":{"handles":[],"target":{"context":"00000000-0002-8000-8000-000000000001"}}}
a sandbox of 256 bytes | told {"id":3,"method":"script.disown","params":{"handles":[],"target":{"context":"00000000-0002-8000-8000-000000000001","sandbox":"«256 a»"}}} -> left out a sandbox
an empty sandbox, or none | eased,told {"id":3,"method":"script.disown","params":{"handles":[],"target":{"context":"00000000-0002-8000-8000-000000000001","sandbox":""}}} -> as it came
an empty sandbox, or none | eased,told {"id":3,"method":"script.evaluate","params":{"awaitPromise":true,"expression":"1 + 1","target":{"context":"00000000-0002-8000-8000-000000000001","sandbox":""}}} -> as it came
an empty sandbox, or none | eased,told {"id":3,"method":"script.disown","params":{"handles":[],"target":{"context":"00000000-0002-8000-8000-000000000001","sandbox":5}}} -> as it came
an empty sandbox, or none | eased,told {"id":3,"method":"script.evaluate","params":{"awaitPromise":true,"expression":"1 + 1","target":{"context":"00000000-0002-8000-8000-000000000001","sandbox":5}}} -> as it came
an empty sandbox, or none | eased,told {"id":3,"method":"script.disown","params":{"handles":[],"target":{"context":"00000000-0002-8000-8000-000000000001","sandbox":null}}} -> as it came
an empty sandbox, or none | eased,told {"id":3,"method":"script.evaluate","params":{"awaitPromise":true,"expression":"1 + 1","target":{"context":"00000000-0002-8000-8000-000000000001","sandbox":null}}} -> as it came
an empty sandbox, or none | eased,told {"id":3,"method":"script.disown","params":{"handles":[],"target":{"context":"00000000-0002-8000-8000-000000000001","sandbox":true}}} -> as it came
an empty sandbox, or none | eased,told {"id":3,"method":"script.evaluate","params":{"awaitPromise":true,"expression":"1 + 1","target":{"context":"00000000-0002-8000-8000-000000000001","sandbox":true}}} -> as it came
an empty sandbox, or none | eased,told {"id":3,"method":"script.disown","params":{"handles":[],"target":{"context":"00000000-0002-8000-8000-000000000001","sandbox":["s"]}}} -> as it came
an empty sandbox, or none | eased,told {"id":3,"method":"script.evaluate","params":{"awaitPromise":true,"expression":"1 + 1","target":{"context":"00000000-0002-8000-8000-000000000001","sandbox":["s"]}}} -> as it came
an empty sandbox, or none | eased,told {"id":3,"method":"script.disown","params":{"handles":[],"target":{"context":"00000000-0002-8000-8000-000000000001","sandbox":{"s":"s"}}}} -> as it came
an empty sandbox, or none | eased,told {"id":3,"method":"script.evaluate","params":{"awaitPromise":true,"expression":"1 + 1","target":{"context":"00000000-0002-8000-8000-000000000001","sandbox":{"s":"s"}}}} -> as it came
a sandbox of another kind is refused | lenient-in-session {"id":3,"method":"script.disown","params":{"handles":[],"target":{"context":"00000000-0002-8000-8000-000000000001","sandbox":5}}} -> {"error":"invalid argument","id":3,"message":"invalid argument","type":"error"}
a sandbox elsewhere | eased,told {"id":3,"method":"script.disown","sandbox":"s","params":{"sandbox":"s","handles":[{"target":{"sandbox":"s"}}],"target":{"context":"c","x":{"sandbox":"s"}}}} -> as it came
a sandbox of another command | eased,told {"id":3,"method":"script.getRealms","params":{"x":"script.disown","target":{"context":"c","sandbox":"s"}}} -> as it came
a sandbox of another command | eased,told {"id":3,"method":"script.addPreloadScript","params":{"functionDeclaration":"script.evaluate","sandbox":"s"}} -> as it came
no target | eased,told {"id":3,"method":"script.disown","params":{"handles":[]}} -> as it came
a target that is no object | eased,told {"id":3,"method":"script.disown","params":{"handles":[],"target":"sandbox"}} -> as it came
a source URL | eased {"id":3,"method":"script.evaluate","params":{"awaitPromise":true,"expression":"1 + 1\n//# sourceURL=pptr:evaluate;file%3A%2F%2Fa.js%3A1%3A2\n","target":{"context":"00000000-0002-8000-8000-000000000001"}}} -> {"id":3,"method":"script.evaluate","params":{"awaitPromise":true,"expression":"1 + 1","target":{"context":"00000000-0002-8000-8000-000000000001"}}}
a source URL | told {"id":3,"method":"script.evaluate","params":{"awaitPromise":true,"expression":"1 + 1\n//# sourceURL=pptr:evaluate;file%3A%2F%2Fa.js%3A1%3A2\n","target":{"context":"00000000-0002-8000-8000-000000000001"}}} -> left out sourceURL
a source URL without a line feed behind it | eased {"id":3,"method":"script.callFunction","params":{"awaitPromise":false,"functionDeclaration":"() => 1\n//# sourceURL=a","target":{"context":"00000000-0002-8000-8000-000000000001"}}} -> {"id":3,"method":"script.callFunction","params":{"awaitPromise":false,"functionDeclaration":"() => 1","target":{"context":"00000000-0002-8000-8000-000000000001"}}}
a source URL alone | eased {"id":3,"method":"script.evaluate","params":{"awaitPromise":true,"expression":"//# sourceURL=a\n","target":{"context":"00000000-0002-8000-8000-000000000001"}}} -> {"id":3,"method":"script.evaluate","params":{"awaitPromise":true,"expression":"","target":{"context":"00000000-0002-8000-8000-000000000001"}}}
a source URL alone | eased {"id":3,"method":"script.evaluate","params":{"awaitPromise":true,"expression":"//# sourceURL=","target":{"context":"00000000-0002-8000-8000-000000000001"}}} -> {"id":3,"method":"script.evaluate","params":{"awaitPromise":true,"expression":"","target":{"context":"00000000-0002-8000-8000-000000000001"}}}
a source URL alone | told {"id":3,"method":"script.evaluate","params":{"awaitPromise":true,"expression":"//# sourceURL=","target":{"context":"00000000-0002-8000-8000-000000000001"}}} -> left out sourceURL
a source URL after an empty line | eased {"id":3,"method":"script.evaluate","params":{"awaitPromise":true,"expression":"\n\n//# sourceURL=a","target":{"context":"00000000-0002-8000-8000-000000000001"}}} -> {"id":3,"method":"script.evaluate","params":{"awaitPromise":true,"expression":"\n","target":{"context":"00000000-0002-8000-8000-000000000001"}}}
the last of two source URLs | eased {"id":3,"method":"script.evaluate","params":{"awaitPromise":true,"expression":"1\n//# sourceURL=a\n//# sourceURL=b\n","target":{"context":"00000000-0002-8000-8000-000000000001"}}} -> {"id":3,"method":"script.evaluate","params":{"awaitPromise":true,"expression":"1\n//# sourceURL=a","target":{"context":"00000000-0002-8000-8000-000000000001"}}}
a carriage return stays | eased {"id":3,"method":"script.evaluate","params":{"awaitPromise":true,"expression":"1\r\n//# sourceURL=a\r\n","target":{"context":"00000000-0002-8000-8000-000000000001"}}} -> {"id":3,"method":"script.evaluate","params":{"awaitPromise":true,"expression":"1\r","target":{"context":"00000000-0002-8000-8000-000000000001"}}}
letters beyond ASCII | eased {"id":3,"method":"script.evaluate","params":{"awaitPromise":true,"expression":"é\n//# sourceURL=ü","target":{"context":"00000000-0002-8000-8000-000000000001"}}} -> {"id":3,"method":"script.evaluate","params":{"awaitPromise":true,"expression":"é","target":{"context":"00000000-0002-8000-8000-000000000001"}}}
no source URL in the last line | eased,told {"id":3,"method":"script.evaluate","params":{"awaitPromise":true,"expression":"1 + 1","target":{"context":"00000000-0002-8000-8000-000000000001"}}} -> as it came
no source URL in the last line | eased,told {"id":3,"method":"script.evaluate","params":{"awaitPromise":true,"expression":"","target":{"context":"00000000-0002-8000-8000-000000000001"}}} -> as it came
no source URL in the last line | eased,told {"id":3,"method":"script.evaluate","params":{"awaitPromise":true,"expression":"\n","target":{"context":"00000000-0002-8000-8000-000000000001"}}} -> as it came
no source URL in the last line | eased,told {"id":3,"method":"script.evaluate","params":{"awaitPromise":true,"expression":"1 //# sourceURL=a","target":{"context":"00000000-0002-8000-8000-000000000001"}}} -> as it came
no source URL in the last line | eased,told {"id":3,"method":"script.evaluate","params":{"awaitPromise":true,"expression":"1\n //# sourceURL=a","target":{"context":"00000000-0002-8000-8000-000000000001"}}} -> as it came
no source URL in the last line | eased,told {"id":3,"method":"script.evaluate","params":{"awaitPromise":true,"expression":"1\n//# sourceURL","target":{"context":"00000000-0002-8000-8000-000000000001"}}} -> as it came
no source URL in the last line | eased,told {"id":3,"method":"script.evaluate","params":{"awaitPromise":true,"expression":"1\n//# sourceurl=a","target":{"context":"00000000-0002-8000-8000-000000000001"}}} -> as it came
no source URL in the last line | eased,told {"id":3,"method":"script.evaluate","params":{"awaitPromise":true,"expression":"1\n//# sourceURL=a\n\n","target":{"context":"00000000-0002-8000-8000-000000000001"}}} -> as it came
no source URL in the last line | eased,told {"id":3,"method":"script.evaluate","params":{"awaitPromise":true,"expression":"1\n//# sourceURL=a\n2","target":{"context":"00000000-0002-8000-8000-000000000001"}}} -> as it came
no source URL in the last line | eased,told {"id":3,"method":"script.evaluate","params":{"awaitPromise":true,"expression":"1\n//@ sourceURL=a","target":{"context":"00000000-0002-8000-8000-000000000001"}}} -> as it came
no source URL in the last line | eased,told {"id":3,"method":"script.evaluate","params":{"awaitPromise":true,"expression":"1\n//# sourceMappingURL=a","target":{"context":"00000000-0002-8000-8000-000000000001"}}} -> as it came
a script that is no text | eased,told {"id":3,"method":"script.evaluate","params":{"awaitPromise":true,"expression":["//# sourceURL=a"],"target":{"context":"00000000-0002-8000-8000-000000000001"}}} -> as it came
a source URL in another member | eased,told {"id":3,"method":"script.evaluate","params":{"expression":"1","functionDeclaration":"1\n//# sourceURL=a","target":{"context":"c"}}} -> as it came
a source URL in another member | eased,told {"id":3,"method":"script.callFunction","params":{"functionDeclaration":"1","expression":"1\n//# sourceURL=a","target":{"context":"c"}}} -> as it came
a source URL of another command | eased,told {"id":3,"method":"script.disown","params":{"expression":"1\n//# sourceURL=a","handles":[],"target":{"context":"c"}}} -> as it came
a source URL and a sandbox | eased {"id":3,"method":"script.evaluate","params":{"awaitPromise":true,"expression":"1 + 1\n//# sourceURL=pptr:evaluate;file%3A%2F%2Fa.js%3A1%3A2\n","target":{"context":"00000000-0002-8000-8000-000000000001","sandbox":"__puppeteer_internal_24.1.0"}}} -> {"id":3,"method":"script.evaluate","params":{"awaitPromise":true,"expression":"1 + 1","target":{"context":"00000000-0002-8000-8000-000000000001"}}}
a source URL and a sandbox | told {"id":3,"method":"script.evaluate","params":{"awaitPromise":true,"expression":"1 + 1\n//# sourceURL=pptr:evaluate;file%3A%2F%2Fa.js%3A1%3A2\n","target":{"context":"00000000-0002-8000-8000-000000000001","sandbox":"__puppeteer_internal_24.1.0"}}} -> left out sourceURL, left out sandbox __puppeteer_internal_24.1.0
other members of a script stay | eased {"id":3,"method":"script.evaluate","params":{"awaitPromise":true,"expression":"1\n//# sourceURL=a","target":{"context":"00000000-0002-8000-8000-000000000001"},"x":{"sandbox":"s"}}} -> {"id":3,"method":"script.evaluate","params":{"awaitPromise":true,"expression":"1","target":{"context":"00000000-0002-8000-8000-000000000001"},"x":{"sandbox":"s"}}}
a close of the browser | eased {"id":5,"method":"browser.close","params":{}} -> {"id":5,"method":"session.end","params":{}}
a close of the browser | told {"id":5,"method":"browser.close","params":{}} -> took browser.close as session.end
a close of the browser | strict-in-session {"id":5,"method":"browser.close","params":{}} -> {"error":"unknown command","id":5,"message":"unknown command","type":"error"}
a close of the browser | lenient-in-session {"id":5,"method":"browser.close","params":{}} -> {"id":5,"result":{},"type":"success"}
a close without a session | lenient {"id":5,"method":"browser.close","params":{}} -> {"error":"invalid session id","id":5,"message":"invalid session id","type":"error"}
a close with other members | eased {"x":[1],"params":{"y":null},"method":"browser.close","id":9007199254740991} -> {"id":9007199254740991,"method":"session.end","params":{"y":null},"x":[1]}
a close without an id | eased {"method":"browser.close","params":{}} -> {"method":"session.end","params":{}}
a close without an id | lenient-in-session {"method":"browser.close","params":{}} -> {"error":"invalid argument","id":null,"message":"invalid argument","type":"error"}
a close without params | lenient-in-session {"id":5,"method":"browser.close"} -> {"error":"invalid argument","id":5,"message":"invalid argument","type":"error"}
a close in another place | eased,told {"id":5,"method":"session.status","params":{"method":"browser.close"}} -> as it came
contexts of an unsubscribe | eased {"id":6,"method":"session.unsubscribe","params":{"contexts":["00000000-0002-8000-8000-000000000001"],"events":["log.entryAdded"]}} -> {"id":6,"method":"session.unsubscribe","params":{}}
contexts of an unsubscribe | told {"id":6,"method":"session.unsubscribe","params":{"contexts":["00000000-0002-8000-8000-000000000001"],"events":["log.entryAdded"]}} -> refused contexts of session.unsubscribe
contexts of an unsubscribe | lenient-in-session {"id":6,"method":"session.unsubscribe","params":{"contexts":["00000000-0002-8000-8000-000000000001"],"events":["log.entryAdded"]}} -> {"error":"invalid argument","id":6,"message":"invalid argument","type":"error"}
contexts of any kind | eased {"id":6,"method":"session.unsubscribe","params":{"contexts":null,"subscriptions":["s"]}} -> {"id":6,"method":"session.unsubscribe","params":{}}
no contexts | eased,told {"id":6,"method":"session.unsubscribe","contexts":["c"],"params":{"events":["network"],"x":{"contexts":["c"]}}} -> as it came
contexts of another command | eased,told {"id":6,"method":"session.status","params":{"contexts":["session.unsubscribe"]}} -> as it came
contexts of a subscription | eased,told {"id":6,"method":"session.subscribe","params":{"contexts":["c"],"events":["log"]}} -> as it came
another command | eased,told {"id":1,"method":"session.status","params":{"session.new":"session.subscribe","events":["network"],"capabilities":{"alwaysMatch":{"proxy":1}}}} -> as it came
no JSON | eased,told {"id":1,"method":"session.new","params":{"capabilities":{"alwaysMatch":{"webSocketUrl":true,"browserName":"firefox","acceptInsecureCerts":true,"unhandledPromptBehavior":{"default":"ignore"}}}} -> as it came
no JSON | eased,told session.new -> as it came
no map | eased,told ["session.new"] -> as it came
a fraction | eased,told {"id":1,"method":"session.new","params":{"capabilities":{"alwaysMatch":{"webSocketUrl":true,"a:b":1.5}}}} -> as it came
a fraction that would be left out | eased,told {"id":1,"method":"session.new","params":{"capabilities":{"alwaysMatch":{"timeouts":{"script":0.5}}}}} -> as it came
an id past the range | eased,told {"id":9007199254740992,"method":"session.subscribe","params":{"events":["network"]}} -> as it came
an id at its end | eased {"id":9007199254740991,"method":"script.disown","params":{"handles":[],"target":{"context":"c","sandbox":"s"}}} -> {"id":9007199254740991,"method":"script.disown","params":{"handles":[],"target":{"context":"c"}}}
an escape in the method | eased,told {"id":2,"method":"session\u002esubscribe","params":{"events":["network"]}} -> as it came
an escape in a name | eased {"id":3,"method":"script.disown","params":{"handles":[],"target":{"context":"c","s\u0061ndbox":"s"}}} -> {"id":3,"method":"script.disown","params":{"handles":[],"target":{"context":"c"}}}
blanks around it | eased  {"id":5,"method":"browser.close","params":{}}  -> {"id":5,"method":"session.end","params":{}}
100 levels | eased {"a":«99 [»«99 ]»,"id":5,"method":"browser.close","params":{}} -> {"a":«99 [»«99 ]»,"id":5,"method":"session.end","params":{}}
101 levels | eased,told {"a":«100 [»«100 ]»,"id":5,"method":"browser.close","params":{}} -> as it came
1,048,576 bytes | told {"id":1,"method":"session.subscribe","params":{"events":["network"]}}«1048507  » -> held module network
1,048,577 bytes | told {"id":1,"method":"session.subscribe","params":{"events":["network"]}}«1048508  » -> as it came
"#;

#[test]
fn what_the_profile_lacks_is_left_out(rt: HostRuntime) -> Result<(), Fail> {
    check_rows::<Client>(rt.alloc(), TEXTS)
}

/// The text that takes the place of the client's; `stays` if there is none, but something is reported.
fn eased(alloc: Global, text: &str) -> Result<String, Fail> {
    match ease(alloc, text)? {
        Some(Eased { text, reports: _ }) => text_or(alloc, text, "stays"),
        None => Ok(String::from_str(alloc, "as it came")?),
    }
}

/// The reports on a text.
fn told(alloc: Global, text: &str) -> Result<String, Fail> {
    match ease(alloc, text)? {
        Some(Eased { text: _, reports }) => joined(alloc, &reports, ", "),
        None => Ok(String::from_str(alloc, "as it came")?),
    }
}

/// The text that a lenient server hands on.
fn handed_on(alloc: Global, text: &str) -> Result<String, Fail> {
    match ease(alloc, text)? {
        Some(
            Eased {
                text: eased,
                reports: _,
            },
        ) => text_or(alloc, eased, text),
        None => Ok(String::from_str(alloc, text)?),
    }
}

/// The text, or the other one if there is none.
fn text_or(alloc: Global, text: Option<String>, other: &str) -> Result<String, Fail> {
    match text {
        Some(text) => Ok(text),
        None => Ok(String::from_str(alloc, other)?),
    }
}

/// The texts with a separator between them.
fn joined(alloc: Global, texts: &[String], separator: &str) -> Result<String, Fail> {
    let mut all = String::new(alloc);
    for text in texts {
        if !all.is_empty() {
            all.push_str(separator)?;
        }
        all.push_str(text)?;
    }
    Ok(all)
}

/// What a remote end sends on a connection without a session, when it takes a text there.
fn sent(alloc: Global, text: &str) -> Result<String, Fail> {
    let mut end = RemoteEnd::new(alloc)?;
    let conn = JsUint { value: 1 };
    end.step(Step::Open(conn, String::from_str(alloc, "/session")?))?;
    let sent = end.step(Step::Text(conn, String::from_str(alloc, text)?))?;
    texts_of(alloc, &sent)
}

/// The command that makes a session.
const NEW: &str = r#"{"id":1,"method":"session.new","params":{"capabilities":{}}}"#;

/// The same on a connection that speaks for a session.
fn sent_in_session(alloc: Global, text: &str) -> Result<String, Fail> {
    let mut end = RemoteEnd::new(alloc)?;
    let conn = JsUint { value: 1 };
    end.step(Step::Open(conn, String::from_str(alloc, "/session")?))?;
    end.step(Step::Text(conn, String::from_str(alloc, NEW)?))?;
    let sent = end.step(Step::Text(conn, String::from_str(alloc, text)?))?;
    texts_of(alloc, &sent)
}

/// The texts that are sent, with a blank between them.
fn texts_of(alloc: Global, sent: &[Sent]) -> Result<String, Fail> {
    let mut all = String::new(alloc);
    for one in sent {
        if let Sent::Text(_, text) = one {
            if !all.is_empty() {
                all.push_str(" ")?;
            }
            all.push_str(text.as_str())?;
        }
    }
    Ok(all)
}
