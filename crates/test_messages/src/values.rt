//! Values of scripts, references, targets, results, log entries and rows of a play's table: `docs/FORMATS.md`.
use bidi_scripts::{
    ConsoleEntry, ContextTarget, EvaluateException, EvaluateResult, EvaluateSuccess,
    ExceptionDetails, GenericLogEntry, JavascriptEntry, Level, LogEntry, RealmTarget, Source,
    StackTrace, TableRow, Target,
};
use bidi_shape::Shape;
use bidi_tree::{JsUint, Tree};
use bidi_values::{
    ListKind, LocalPlain, LocalValue, Nested, Nests, Opaque, PairsKind, Primitive, Reference,
    RegExpValue, RemoteList, RemoteObjectReference, RemotePairs, RemotePlain, RemoteValue,
    SharedReference, Siblings,
};
use std::alloc::Global;
use std::test::Fail;
use testing::rows::{Asked, check_rows};
use testing::texts::{again, members_of, text_of, told, tree_of, value_of, written};

/// What a text reads as, by the name of a type: the compact text of the value, for a choice behind the name of the
/// alternative, or the fault.
struct Values;

impl Asked for Values {
    fn found(alloc: Global, word: &str, text: &str) -> Result<String, Fail> {
        match word {
            "Primitive" => again::<Primitive>(alloc, text),
            "Opaque" => again::<Opaque>(alloc, text),
            "Level" => again::<Level>(alloc, text),
            "RegExpValue" => again::<RegExpValue>(alloc, text),
            "Source" => again::<Source>(alloc, text),
            "StackTrace" => again::<StackTrace>(alloc, text),
            "Target" => chosen::<Target>(alloc, text),
            "Reference" => chosen::<Reference>(alloc, text),
            "LocalValue" => again::<LocalValue>(alloc, text),
            "RemoteValue" => again::<RemoteValue>(alloc, text),
            "ExceptionDetails" => again::<ExceptionDetails>(alloc, text),
            "EvaluateResult" => chosen::<EvaluateResult>(alloc, text),
            "EvaluateSuccess" => again::<EvaluateSuccess>(alloc, text),
            "EvaluateException" => again::<EvaluateException>(alloc, text),
            "TableRow" => chosen::<TableRow>(alloc, text),
            "LogEntry" => chosen::<LogEntry>(alloc, text),
            "ConsoleEntry" => again::<ConsoleEntry>(alloc, text),
            "JavascriptEntry" => again::<JavascriptEntry>(alloc, text),
            "GenericLogEntry" => again::<GenericLogEntry>(alloc, text),
            _ => Err(Fail::from("no such type")),
        }
    }
}

/// A choice, of which the rows name the alternatives.
trait Choice: Shape {
    /// The name of the alternative.
    fn kind(&self) -> &'static str;
}

impl Choice for Target {
    fn kind(&self) -> &'static str {
        match self {
            Target::Context(_) => "context",
            Target::Realm(_) => "realm",
        }
    }
}

impl Choice for Reference {
    fn kind(&self) -> &'static str {
        match self {
            Reference::Shared(_) => "shared",
            Reference::RemoteObject(_) => "object",
        }
    }
}

impl Choice for EvaluateResult {
    fn kind(&self) -> &'static str {
        match self {
            EvaluateResult::Success(_) => "success",
            EvaluateResult::Exception(_) => "exception",
        }
    }
}

impl Choice for TableRow {
    fn kind(&self) -> &'static str {
        match self {
            TableRow::Returns(_) => "returns",
            TableRow::Throws(_) => "throws",
            TableRow::Argument(_) => "argument",
        }
    }
}

impl Choice for LogEntry {
    fn kind(&self) -> &'static str {
        match self {
            LogEntry::Console(_) => "console",
            LogEntry::Javascript(_) => "javascript",
            LogEntry::Generic(_) => "generic",
        }
    }
}

fn chosen<X: Choice>(alloc: Global, text: &str) -> Result<String, Fail> {
    match X::from_tree(alloc, &tree_of(alloc, text)?) {
        Ok(value) => chosen_text(alloc, value, text),
        Err(fault) => Ok(format!(in alloc; "{fault:?}")?),
    }
}

fn chosen_text<X: Choice>(alloc: Global, value: X, text: &str) -> Result<String, Fail> {
    let kind = value.kind();
    let found = text_of(alloc, value)?;
    let shown = if found.as_str() == text {
        "same"
    } else {
        found.as_str()
    };
    Ok(format!(in alloc; "{kind} {shown}")?)
}

const PLAIN: &str = r#"
Primitive {"type":"undefined"} -> same
Primitive {"type":"null"} -> same
Primitive {"type":"string","value":"a"} -> same
Primitive {"type":"number","value":0} -> same
Primitive {"type":"number","value":-9007199254740991} -> same
Primitive {"type":"number","value":"NaN"} -> same
Primitive {"type":"number","value":"-0"} -> same
Primitive {"type":"number","value":"Infinity"} -> same
Primitive {"type":"number","value":"-Infinity"} -> same
Primitive {"type":"boolean","value":true} -> same
Primitive {"type":"bigint","value":"9007199254740992"} -> same
Primitive {"type":"number","value":-0} -> NoFit
Primitive {"type":"number","value":1.5} -> NoFit
Primitive {"type":"number","value":9007199254740992} -> NoFit
Primitive {"type":"number","value":"nan"} -> NoFit
Primitive {"type":"number","value":"0"} -> NoFit
Primitive {"type":"string","value":1} -> NoFit
Primitive {"type":"boolean","value":"true"} -> NoFit
Primitive {"type":"bigint","value":1} -> NoFit
Primitive {"type":"string"} -> NoFit
Primitive {"type":"undefined","value":"undefined"} -> NoFit
Primitive {"type":"undefined","handle":"h"} -> NoFit
Primitive {"type":"string","value":"a","x":1} -> NoFit
Primitive {"type":"symbol"} -> NoFit
Primitive {} -> NoFit
Primitive null -> NoFit
Opaque "symbol" -> same
Opaque "function" -> same
Opaque "weakmap" -> same
Opaque "weakset" -> same
Opaque "generator" -> same
Opaque "error" -> same
Opaque "proxy" -> same
Opaque "promise" -> same
Opaque "typedarray" -> same
Opaque "arraybuffer" -> same
Opaque "node" -> NoFit
Opaque "Symbol" -> NoFit
Opaque 1 -> NoFit
Level "debug" -> same
Level "info" -> same
Level "warn" -> same
Level "error" -> same
Level "log" -> NoFit
Level null -> NoFit
RegExpValue {"pattern":"a"} -> same
RegExpValue {"pattern":"a","flags":"gi"} -> {"flags":"gi","pattern":"a"}
RegExpValue {"pattern":"a","flags":null} -> NoFit
RegExpValue {"flags":"g"} -> NoFit
RegExpValue {"pattern":"a","x":1} -> NoFit
Source {"realm":"r"} -> same
Source {"realm":"r","context":"c"} -> {"context":"c","realm":"r"}
Source {"realm":"r","context":null} -> NoFit
Source {"context":"c"} -> NoFit
Source {"realm":"r","x":1} -> NoFit
StackTrace {"callFrames":[]} -> same
StackTrace {"callFrames":[{"url":"u","lineNumber":2,"functionName":"f","columnNumber":1}]} -> {"callFrames":[{"columnNumber":1,"functionName":"f","lineNumber":2,"url":"u"}]}
StackTrace {"callFrames":[{"url":"u","lineNumber":-1,"functionName":"f","columnNumber":1}]} -> NoFit
StackTrace {"callFrames":[{"url":"u","lineNumber":2,"functionName":"f"}]} -> NoFit
StackTrace {"callFrames":[],"x":1} -> NoFit
StackTrace {} -> NoFit
"#;

const CHOICES: &str = r#"
Target {"context":"c"} -> context same
Target {"context":"c","sandbox":"s"} -> context same
Target {"context":"c","realm":"r"} -> context same
Target {"realm":"r"} -> realm same
Target {"context":5,"realm":"r"} -> realm same
Target {"context":"c","realm":"r","sandbox":null} -> realm same
Target {"context":"c","sandbox":null} -> NoFit
Target {"context":"c","x":1.5} -> NoFit
Target {"context":5} -> NoFit
Target {} -> NoFit
Reference {"sharedId":"s"} -> shared same
Reference {"handle":"h","sharedId":"s"} -> shared same
Reference {"handle":"h"} -> object same
Reference {"handle":"h","type":"array","value":[]} -> object same
Reference {"handle":5,"type":"array","value":[]} -> NoFit
Reference {"handle":5,"sharedId":"s"} -> NoFit
Reference {"handle":"h","sharedId":5} -> NoFit
Reference {"handle":"h","x":-0} -> NoFit
Reference {"type":"undefined"} -> NoFit
"#;

const NESTED: &str = r#"
LocalValue {"type":"array","value":[]} -> same
LocalValue {"type":"array","value":[{"type":"null"},{"type":"set","value":[]}]} -> same
LocalValue {"type":"set","value":[{"type":"undefined"}]} -> same
LocalValue {"type":"date","value":"2026-11-22T00:00:00Z"} -> same
LocalValue {"type":"regexp","value":{"pattern":"a+"}} -> same
LocalValue {"type":"regexp","value":{"flags":"gi","pattern":"a+"}} -> same
LocalValue {"type":"map","value":[]} -> same
LocalValue {"type":"map","value":[["a",{"type":"number","value":1}]]} -> same
LocalValue {"type":"map","value":[[{"type":"string","value":"a"},{"type":"null"}]]} -> same
LocalValue {"type":"object","value":[["a",{"type":"object","value":[]}]]} -> same
LocalValue {"type":"string","value":"s"} -> same
LocalValue {"handle":"h"} -> same
LocalValue {"sharedId":"s"} -> same
LocalValue {"type":"array"} -> NoFit
LocalValue {"type":"array","value":{}} -> NoFit
LocalValue {"type":"array","value":[1]} -> NoFit
LocalValue {"type":"array","value":[],"x":1} -> NoFit
LocalValue {"type":"array","value":[],"handle":5} -> NoFit
LocalValue {"type":"list","value":[]} -> NoFit
LocalValue {"type":"map","value":[["a"]]} -> NoFit
LocalValue {"type":"map","value":[["a",{"type":"null"},{"type":"null"}]]} -> NoFit
LocalValue {"type":"map","value":[["a","b"]]} -> NoFit
LocalValue {"type":"map","value":[[1,{"type":"null"}]]} -> NoFit
LocalValue {"type":"object","value":["a"]} -> NoFit
LocalValue {"type":"date","value":1} -> NoFit
LocalValue {"value":[]} -> NoFit
LocalValue "array" -> NoFit
LocalValue [] -> NoFit
RemoteValue {"type":"array"} -> same
RemoteValue {"handle":"h","internalId":"i","type":"array","value":[{"type":"null"}]} -> same
RemoteValue {"handle":"h","type":"set"} -> same
RemoteValue {"type":"object","value":[["a",{"type":"number","value":"NaN"}]]} -> same
RemoteValue {"internalId":"i","type":"map","value":[[{"type":"date","value":"d"},{"type":"map"}]]} -> same
RemoteValue {"type":"object"} -> same
RemoteValue {"handle":"h","type":"regexp","value":{"pattern":"p"}} -> same
RemoteValue {"internalId":"i","type":"date","value":"d"} -> same
RemoteValue {"handle":"h","type":"function"} -> same
RemoteValue {"type":"promise"} -> same
RemoteValue {"type":"boolean","value":true} -> same
RemoteValue {"handle":5,"type":"array"} -> NoFit
RemoteValue {"type":"array","value":null} -> NoFit
RemoteValue {"type":"array","value":[],"x":1} -> NoFit
RemoteValue {"type":"function","value":1} -> NoFit
RemoteValue {"handle":"h","type":"null"} -> NoFit
RemoteValue {"handle":"h"} -> NoFit
RemoteValue {"type":"window"} -> NoFit
RemoteValue {"type":"regexp"} -> NoFit
RemoteValue {"type":"object","value":[["a"]]} -> NoFit
LocalValue,RemoteValue «30 {"type":"array","value":[»«30 ]}» -> same
LocalValue,RemoteValue «31 {"type":"array","value":[»«31 ]}» -> NoFit
"#;

#[test]
fn values_and_references(rt: HostRuntime) -> Result<(), Fail> {
    check_rows::<Values>(rt.alloc(), PLAIN)?;
    check_rows::<Values>(rt.alloc(), CHOICES)?;
    check_rows::<Values>(rt.alloc(), NESTED)
}

const RESULTS: &str = r#"
ExceptionDetails {"text":"t","stackTrace":{"callFrames":[]},"lineNumber":2,"exception":{"type":"null"},"columnNumber":1} -> {"columnNumber":1,"exception":{"type":"null"},"lineNumber":2,"stackTrace":{"callFrames":[]},"text":"t"}
ExceptionDetails {"columnNumber":0,"exception":{"type":"error","handle":"h"},"lineNumber":0,"stackTrace":{"callFrames":[{"columnNumber":0,"functionName":"f","lineNumber":3,"url":"u"}]},"text":""} -> {"columnNumber":0,"exception":{"handle":"h","type":"error"},"lineNumber":0,"stackTrace":{"callFrames":[{"columnNumber":0,"functionName":"f","lineNumber":3,"url":"u"}]},"text":""}
ExceptionDetails {"columnNumber":1,"exception":{"type":"null"},"lineNumber":2,"stackTrace":{"callFrames":[]},"text":"t","x":1} -> NoFit
ExceptionDetails {"columnNumber":-1,"exception":{"type":"null"},"lineNumber":2,"stackTrace":{"callFrames":[]},"text":"t"} -> NoFit
ExceptionDetails {"columnNumber":1,"exception":{"type":"null"},"lineNumber":2.0,"stackTrace":{"callFrames":[]},"text":"t"} -> NoFit
ExceptionDetails {"columnNumber":1,"exception":null,"lineNumber":2,"stackTrace":{"callFrames":[]},"text":"t"} -> NoFit
ExceptionDetails {"columnNumber":1,"exception":{"type":"null"},"lineNumber":2,"stackTrace":[],"text":"t"} -> NoFit
ExceptionDetails {"columnNumber":1,"exception":{"type":"null"},"lineNumber":2,"text":"t"} -> NoFit
ExceptionDetails {"columnNumber":1,"exception":{"type":"null"},"lineNumber":2,"stackTrace":{"callFrames":[]},"text":null} -> NoFit
ExceptionDetails {"columnNumber":1,"exception":«29 {"type":"array","value":[»{"type":"null"}«29 ]}»,"lineNumber":2,"stackTrace":{"callFrames":[]},"text":"t"} -> same
ExceptionDetails {"columnNumber":1,"exception":«30 {"type":"array","value":[»«30 ]}»,"lineNumber":2,"stackTrace":{"callFrames":[]},"text":"t"} -> same
ExceptionDetails {"columnNumber":1,"exception":«30 {"type":"array","value":[»{"type":"null"}«30 ]}»,"lineNumber":2,"stackTrace":{"callFrames":[]},"text":"t"} -> NoFit
EvaluateResult {"type":"success","result":{"type":"number","value":1},"realm":"r"} -> success {"realm":"r","result":{"type":"number","value":1},"type":"success"}
EvaluateSuccess {"type":"success","result":{"type":"number","value":1},"realm":"r"} -> {"realm":"r","result":{"type":"number","value":1},"type":"success"}
EvaluateException {"type":"success","result":{"type":"number","value":1},"realm":"r"} -> NoFit
EvaluateResult {"type":"exception","exceptionDetails":{"columnNumber":1,"exception":{"type":"null"},"lineNumber":2,"stackTrace":{"callFrames":[]},"text":"t"},"realm":"r"} -> exception {"exceptionDetails":{"columnNumber":1,"exception":{"type":"null"},"lineNumber":2,"stackTrace":{"callFrames":[]},"text":"t"},"realm":"r","type":"exception"}
EvaluateException {"type":"exception","exceptionDetails":{"columnNumber":1,"exception":{"type":"null"},"lineNumber":2,"stackTrace":{"callFrames":[]},"text":"t"},"realm":"r"} -> {"exceptionDetails":{"columnNumber":1,"exception":{"type":"null"},"lineNumber":2,"stackTrace":{"callFrames":[]},"text":"t"},"realm":"r","type":"exception"}
EvaluateSuccess {"type":"exception","exceptionDetails":{"columnNumber":1,"exception":{"type":"null"},"lineNumber":2,"stackTrace":{"callFrames":[]},"text":"t"},"realm":"r"} -> NoFit
EvaluateResult,EvaluateSuccess,EvaluateException {"type":"failure","result":{"type":"null"},"realm":"r"} -> NoFit
EvaluateResult,EvaluateSuccess,EvaluateException {"type":"exception","result":{"type":"null"},"realm":"r"} -> NoFit
EvaluateResult,EvaluateSuccess,EvaluateException {"type":"success","exceptionDetails":{"columnNumber":1,"exception":{"type":"null"},"lineNumber":2,"stackTrace":{"callFrames":[]},"text":"t"},"realm":"r"} -> NoFit
EvaluateResult,EvaluateSuccess,EvaluateException {"type":"success","result":{"type":"null"},"realm":"r","x":1} -> NoFit
EvaluateResult,EvaluateSuccess,EvaluateException {"type":"success","result":{"type":"null"}} -> NoFit
EvaluateResult,EvaluateSuccess,EvaluateException {"type":"success","result":{"type":"node"},"realm":"r"} -> NoFit
EvaluateResult,EvaluateSuccess,EvaluateException {"result":{"type":"null"},"realm":"r"} -> NoFit
EvaluateResult,EvaluateSuccess,EvaluateException null -> NoFit
"#;

const TABLE_ROWS: &str = r#"
TableRow {"text":"1+1","returns":{"type":"number","value":2}} -> returns {"returns":{"type":"number","value":2},"text":"1+1"}
TableRow {"throws":{"type":"error"},"text":"throw"} -> throws {"text":"throw","throws":{"type":"error"}}
TableRow {"text":"x => x","argument":0} -> argument {"argument":0,"text":"x => x"}
TableRow {"text":"","argument":9007199254740991} -> argument {"argument":9007199254740991,"text":""}
TableRow {"text":"t","returns":{"type":"null"},"throws":{"type":"null"}} -> NoFit
TableRow {"text":"t","returns":{"type":"null"},"argument":0} -> NoFit
TableRow {"text":"t","returns":{"type":"null"},"x":1} -> NoFit
TableRow {"text":"t","returns":2} -> NoFit
TableRow {"text":"t","throws":null} -> NoFit
TableRow {"text":"t","argument":-1} -> NoFit
TableRow {"text":"t","argument":1.0} -> NoFit
TableRow {"text":"t"} -> NoFit
TableRow {"text":null,"argument":0} -> NoFit
TableRow {"returns":{"type":"null"}} -> NoFit
TableRow ["t"] -> NoFit
TableRow {"returns":«30 {"type":"array","value":[»«30 ]}»,"text":"t"} -> returns same
TableRow {"returns":«30 {"type":"array","value":[»{"type":"null"}«30 ]}»,"text":"t"} -> NoFit
"#;

/// Each log entry is a generic one, if nothing else.
const LOG_ENTRIES: &str = r#"
LogEntry {"type":"console","method":"log","args":[{"type":"string","value":"a"}],"level":"info","source":{"realm":"r"},"text":"a","timestamp":1} -> console {"args":[{"type":"string","value":"a"}],"level":"info","method":"log","source":{"realm":"r"},"text":"a","timestamp":1,"type":"console"}
ConsoleEntry,GenericLogEntry {"type":"console","method":"log","args":[{"type":"string","value":"a"}],"level":"info","source":{"realm":"r"},"text":"a","timestamp":1} -> {"args":[{"type":"string","value":"a"}],"level":"info","method":"log","source":{"realm":"r"},"text":"a","timestamp":1,"type":"console"}
JavascriptEntry {"type":"console","method":"log","args":[{"type":"string","value":"a"}],"level":"info","source":{"realm":"r"},"text":"a","timestamp":1} -> NoFit
LogEntry {"type":"console","method":"trace","args":[],"level":"debug","source":{"realm":"r","context":"c"},"text":null,"timestamp":0,"stackTrace":{"callFrames":[]}} -> console {"args":[],"level":"debug","method":"trace","source":{"context":"c","realm":"r"},"stackTrace":{"callFrames":[]},"text":null,"timestamp":0,"type":"console"}
ConsoleEntry,GenericLogEntry {"type":"console","method":"trace","args":[],"level":"debug","source":{"realm":"r","context":"c"},"text":null,"timestamp":0,"stackTrace":{"callFrames":[]}} -> {"args":[],"level":"debug","method":"trace","source":{"context":"c","realm":"r"},"stackTrace":{"callFrames":[]},"text":null,"timestamp":0,"type":"console"}
JavascriptEntry {"type":"console","method":"trace","args":[],"level":"debug","source":{"realm":"r","context":"c"},"text":null,"timestamp":0,"stackTrace":{"callFrames":[]}} -> NoFit
LogEntry {"type":"console","method":"log","level":"info","source":{"realm":"r"},"text":"a","timestamp":1} -> generic {"level":"info","method":"log","source":{"realm":"r"},"text":"a","timestamp":1,"type":"console"}
GenericLogEntry {"type":"console","method":"log","level":"info","source":{"realm":"r"},"text":"a","timestamp":1} -> {"level":"info","method":"log","source":{"realm":"r"},"text":"a","timestamp":1,"type":"console"}
ConsoleEntry,JavascriptEntry {"type":"console","method":"log","level":"info","source":{"realm":"r"},"text":"a","timestamp":1} -> NoFit
LogEntry {"type":"console","method":"log","args":[1],"level":"info","source":{"realm":"r"},"text":"a","timestamp":1} -> generic {"args":[1],"level":"info","method":"log","source":{"realm":"r"},"text":"a","timestamp":1,"type":"console"}
GenericLogEntry {"type":"console","method":"log","args":[1],"level":"info","source":{"realm":"r"},"text":"a","timestamp":1} -> {"args":[1],"level":"info","method":"log","source":{"realm":"r"},"text":"a","timestamp":1,"type":"console"}
ConsoleEntry,JavascriptEntry {"type":"console","method":"log","args":[1],"level":"info","source":{"realm":"r"},"text":"a","timestamp":1} -> NoFit
LogEntry {"type":"console","method":"log","args":[],"level":"info","source":{"realm":"r"},"text":"a","timestamp":1,"x":{}} -> generic {"args":[],"level":"info","method":"log","source":{"realm":"r"},"text":"a","timestamp":1,"type":"console","x":{}}
GenericLogEntry {"type":"console","method":"log","args":[],"level":"info","source":{"realm":"r"},"text":"a","timestamp":1,"x":{}} -> {"args":[],"level":"info","method":"log","source":{"realm":"r"},"text":"a","timestamp":1,"type":"console","x":{}}
ConsoleEntry,JavascriptEntry {"type":"console","method":"log","args":[],"level":"info","source":{"realm":"r"},"text":"a","timestamp":1,"x":{}} -> NoFit
LogEntry {"type":"javascript","level":"error","source":{"realm":"r"},"text":"t","timestamp":9007199254740991} -> javascript {"level":"error","source":{"realm":"r"},"text":"t","timestamp":9007199254740991,"type":"javascript"}
JavascriptEntry,GenericLogEntry {"type":"javascript","level":"error","source":{"realm":"r"},"text":"t","timestamp":9007199254740991} -> {"level":"error","source":{"realm":"r"},"text":"t","timestamp":9007199254740991,"type":"javascript"}
ConsoleEntry {"type":"javascript","level":"error","source":{"realm":"r"},"text":"t","timestamp":9007199254740991} -> NoFit
LogEntry {"type":"javascript","level":"error","source":{"realm":"r"},"text":null,"timestamp":1,"stackTrace":{"callFrames":[{"url":"u","lineNumber":2,"functionName":"f","columnNumber":1}]}} -> javascript {"level":"error","source":{"realm":"r"},"stackTrace":{"callFrames":[{"columnNumber":1,"functionName":"f","lineNumber":2,"url":"u"}]},"text":null,"timestamp":1,"type":"javascript"}
JavascriptEntry,GenericLogEntry {"type":"javascript","level":"error","source":{"realm":"r"},"text":null,"timestamp":1,"stackTrace":{"callFrames":[{"url":"u","lineNumber":2,"functionName":"f","columnNumber":1}]}} -> {"level":"error","source":{"realm":"r"},"stackTrace":{"callFrames":[{"columnNumber":1,"functionName":"f","lineNumber":2,"url":"u"}]},"text":null,"timestamp":1,"type":"javascript"}
ConsoleEntry {"type":"javascript","level":"error","source":{"realm":"r"},"text":null,"timestamp":1,"stackTrace":{"callFrames":[{"url":"u","lineNumber":2,"functionName":"f","columnNumber":1}]}} -> NoFit
LogEntry {"type":"javascript","level":"error","source":{"realm":"r"},"text":"t","timestamp":1,"x":null} -> generic {"level":"error","source":{"realm":"r"},"text":"t","timestamp":1,"type":"javascript","x":null}
GenericLogEntry {"type":"javascript","level":"error","source":{"realm":"r"},"text":"t","timestamp":1,"x":null} -> {"level":"error","source":{"realm":"r"},"text":"t","timestamp":1,"type":"javascript","x":null}
ConsoleEntry,JavascriptEntry {"type":"javascript","level":"error","source":{"realm":"r"},"text":"t","timestamp":1,"x":null} -> NoFit
LogEntry {"type":"","level":"warn","source":{"realm":"r"},"text":null,"timestamp":1} -> generic {"level":"warn","source":{"realm":"r"},"text":null,"timestamp":1,"type":""}
GenericLogEntry {"type":"","level":"warn","source":{"realm":"r"},"text":null,"timestamp":1} -> {"level":"warn","source":{"realm":"r"},"text":null,"timestamp":1,"type":""}
ConsoleEntry,JavascriptEntry {"type":"","level":"warn","source":{"realm":"r"},"text":null,"timestamp":1} -> NoFit
LogEntry {"type":"other","level":"warn","source":{"realm":"r"},"text":"t","timestamp":1,"method":5,"a":[[]],"stackTrace":{"callFrames":[]}} -> generic {"a":[[]],"level":"warn","method":5,"source":{"realm":"r"},"stackTrace":{"callFrames":[]},"text":"t","timestamp":1,"type":"other"}
GenericLogEntry {"type":"other","level":"warn","source":{"realm":"r"},"text":"t","timestamp":1,"method":5,"a":[[]],"stackTrace":{"callFrames":[]}} -> {"a":[[]],"level":"warn","method":5,"source":{"realm":"r"},"stackTrace":{"callFrames":[]},"text":"t","timestamp":1,"type":"other"}
ConsoleEntry,JavascriptEntry {"type":"other","level":"warn","source":{"realm":"r"},"text":"t","timestamp":1,"method":5,"a":[[]],"stackTrace":{"callFrames":[]}} -> NoFit
LogEntry,ConsoleEntry,JavascriptEntry,GenericLogEntry {"type":"other","level":"info","source":{"realm":"r"},"text":"t","timestamp":1,"stackTrace":null} -> NoFit
LogEntry,ConsoleEntry,JavascriptEntry,GenericLogEntry {"type":"javascript","level":"info","source":{"realm":"r"},"text":"t","timestamp":1,"stackTrace":[]} -> NoFit
LogEntry,ConsoleEntry,JavascriptEntry,GenericLogEntry {"type":"console","method":"log","args":[],"level":"info","source":{"realm":"r"},"text":"t","timestamp":1,"stackTrace":"s"} -> NoFit
LogEntry,ConsoleEntry,JavascriptEntry,GenericLogEntry {"type":"other","level":"info","source":{"realm":"r","userContext":"u"},"text":"t","timestamp":1} -> NoFit
LogEntry,ConsoleEntry,JavascriptEntry,GenericLogEntry {"type":"other","level":"info","source":{"context":"c"},"text":"t","timestamp":1} -> NoFit
LogEntry,ConsoleEntry,JavascriptEntry,GenericLogEntry {"type":"other","level":"info","source":{"realm":"r"},"text":"t","timestamp":1.0} -> NoFit
LogEntry,ConsoleEntry,JavascriptEntry,GenericLogEntry {"type":"other","level":"info","source":{"realm":"r"},"text":"t","timestamp":9007199254740992} -> NoFit
LogEntry,ConsoleEntry,JavascriptEntry,GenericLogEntry {"type":"other","level":"info","source":{"realm":"r"},"text":"t","timestamp":-1} -> NoFit
LogEntry,ConsoleEntry,JavascriptEntry,GenericLogEntry {"type":"other","level":"info","source":{"realm":"r"},"text":1,"timestamp":1} -> NoFit
LogEntry,ConsoleEntry,JavascriptEntry,GenericLogEntry {"type":"other","level":"info","source":{"realm":"r"},"timestamp":1} -> NoFit
LogEntry,ConsoleEntry,JavascriptEntry,GenericLogEntry {"type":"other","source":{"realm":"r"},"text":"t","timestamp":1} -> NoFit
LogEntry,ConsoleEntry,JavascriptEntry,GenericLogEntry {"type":null,"level":"info","source":{"realm":"r"},"text":"t","timestamp":1} -> NoFit
LogEntry,ConsoleEntry,JavascriptEntry,GenericLogEntry {"level":"info","source":{"realm":"r"},"text":"t","timestamp":1} -> NoFit
LogEntry,ConsoleEntry,JavascriptEntry,GenericLogEntry {"type":"other","level":"info","source":{"realm":"r"},"text":"t","timestamp":1,"x":-0} -> NoFit
LogEntry,ConsoleEntry,JavascriptEntry,GenericLogEntry "console" -> NoFit
LogEntry {"level":"debug","source":{"realm":"r"},"text":"t","timestamp":1,"type":"javascript"} -> javascript same
LogEntry {"level":"info","source":{"realm":"r"},"text":"t","timestamp":1,"type":"javascript"} -> javascript same
LogEntry {"level":"warn","source":{"realm":"r"},"text":"t","timestamp":1,"type":"javascript"} -> javascript same
LogEntry {"level":"error","source":{"realm":"r"},"text":"t","timestamp":1,"type":"javascript"} -> javascript same
LogEntry {"level":"fatal","source":{"realm":"r"},"text":"t","timestamp":1,"type":"javascript"} -> NoFit
LogEntry {"level":"Info","source":{"realm":"r"},"text":"t","timestamp":1,"type":"javascript"} -> NoFit
LogEntry {"level":"","source":{"realm":"r"},"text":"t","timestamp":1,"type":"javascript"} -> NoFit
"#;

#[test]
fn results_and_log_entries(rt: HostRuntime) -> Result<(), Fail> {
    check_rows::<Values>(rt.alloc(), RESULTS)?;
    check_rows::<Values>(rt.alloc(), TABLE_ROWS)?;
    check_rows::<Values>(rt.alloc(), LOG_ENTRIES)
}

// ---- what is made of values

/// What is made of a value: it is checked, copied, or made once more with the members behind ` + `.
struct Made;

impl Asked for Made {
    fn found(alloc: Global, word: &str, text: &str) -> Result<String, Fail> {
        match word {
            "checked" => checked::<LocalPlain, ListKind, PairsKind>(alloc, text),
            "copied" => copied::<RemotePlain, RemoteList, RemotePairs>(alloc, text),
            "object" => kept(alloc, value_of(alloc, text)),
            "local-object" => kept(alloc, object_in(alloc, text)),
            _ => with_further(alloc, word, text),
        }
    }
}

const NESTED_AGAIN: &str = r#"
checked «30 {"type":"array","value":[»«30 ]}» -> same
copied {"handle":"h","type":"function"} -> same
copied {"handle":"h","internalId":"i","type":"array","value":[{"type":"object","value":[["k",{"handle":"g","type":"date","value":"d"}]]}]} -> same
copied {"type":"bigint","value":"1"} -> same
"#;

/// A map with a handle is a reference, and keeps its further members.
const FURTHER: &str = r#"
object {"type":"array","value":[],"handle":"h"} -> {"handle":"h","type":"array","value":[]} with {"type":"array","value":[]}
local-object {"handle":"h","type":"array","value":[]} -> {"handle":"h","type":"array","value":[]} with {"type":"array","value":[]}
"#;

const MADE: &str = r#"
ContextTarget {"context":"c","sandbox":"s"} + {} -> {"context":"c","sandbox":"s"}
ContextTarget {"context":"c","sandbox":"s"} + {"realm":"r"} -> {"context":"c","realm":"r","sandbox":"s"}
ContextTarget {"context":"c","sandbox":"s"} + {"context":1.5} -> Clash
ContextTarget {"context":"c","sandbox":"s"} + {"sandbox":1} -> Clash
ContextTarget {"context":"c","sandbox":"s"} + {"x":[-0]} -> TooDeep
RealmTarget {"realm":"r"} + {} -> {"realm":"r"}
RealmTarget {"realm":"r"} + {"x":1} -> {"realm":"r","x":1}
RealmTarget {"realm":"r"} + {"context":5} -> {"context":5,"realm":"r"}
RealmTarget {"realm":"r"} + {"context":"c","sandbox":1} -> {"context":"c","realm":"r","sandbox":1}
RealmTarget {"realm":"r"} + {"context":"c"} -> Shadowed
RealmTarget {"realm":"r"} + {"context":"c","sandbox":"s"} -> Shadowed
RealmTarget {"realm":"r"} + {"context":"c","realm":"x"} -> Clash
RealmTarget {"realm":"r"} + {"realm":1.5} -> Clash
RealmTarget {"realm":"r"} + {"x":1.5} -> TooDeep
no context target has such a member | RealmTarget {"realm":"r"} + {"context":"c","x":1.5} -> TooDeep
SharedReference {"handle":"h","sharedId":"s"} + {} -> {"handle":"h","sharedId":"s"}
SharedReference {"handle":"h","sharedId":"s"} + {"x":1} -> {"handle":"h","sharedId":"s","x":1}
SharedReference {"handle":"h","sharedId":"s"} + {"handle":1.5} -> Clash
SharedReference {"handle":"h","sharedId":"s"} + {"sharedId":"s"} -> Clash
SharedReference {"handle":"h","sharedId":"s"} + {"x":1.5} -> TooDeep
RemoteObjectReference {"handle":"h"} + {} -> {"handle":"h"}
RemoteObjectReference {"handle":"h"} + {"type":"array","value":[]} -> {"handle":"h","type":"array","value":[]}
RemoteObjectReference {"handle":"h"} + {"sharedId":"s"} -> Clash
RemoteObjectReference {"handle":"h"} + {"handle":1.5} -> Clash
RemoteObjectReference {"handle":"h"} + {"x":[-0]} -> TooDeep
RemoteObjectReference {"handle":"h","sharedId":"s"} + {} -> Shadowed
RemoteObjectReference {"handle":"h","sharedId":"s"} + {"x":1} -> Shadowed
RemoteObjectReference {"handle":"h","sharedId":"s"} + {"handle":1} -> Clash
no shared reference has such a member | RemoteObjectReference {"handle":"h","sharedId":"s"} + {"x":1.5} -> TooDeep
RealmTarget {"realm":"r"} + {"x":«60 [»«60 ]»} -> {"realm":"r","x":«60 [»«60 ]»}
RealmTarget {"realm":"r"} + {"x":«61 [»«61 ]»} -> TooDeep
SharedReference {"handle":"h","sharedId":"s"} + {"x":«60 [»«60 ]»} -> {"handle":"h","sharedId":"s","x":«60 [»«60 ]»}
SharedReference {"handle":"h","sharedId":"s"} + {"x":«61 [»«61 ]»} -> TooDeep
"#;

const MADE_ENTRIES: &str = r#"
GenericLogEntry {"level":"info","source":{"realm":"r"},"text":"t","timestamp":1,"type":"javascript"} + {} -> Shadowed
GenericLogEntry {"level":"info","source":{"realm":"r"},"text":"t","timestamp":1,"type":"javascript"} + {"x":1} -> {"level":"info","source":{"realm":"r"},"text":"t","timestamp":1,"type":"javascript","x":1}
GenericLogEntry {"level":"info","source":{"realm":"r"},"text":"t","timestamp":1,"type":"console"} + {"args":[],"method":"log"} -> Shadowed
GenericLogEntry {"level":"info","source":{"realm":"r"},"text":"t","timestamp":1,"type":"console"} + {"args":[{"type":"null"}],"method":"log"} -> Shadowed
GenericLogEntry {"level":"info","source":{"realm":"r"},"text":"t","timestamp":1,"type":"console"} + {"method":"log"} -> {"level":"info","method":"log","source":{"realm":"r"},"text":"t","timestamp":1,"type":"console"}
GenericLogEntry {"level":"info","source":{"realm":"r"},"text":"t","timestamp":1,"type":"console"} + {"args":[]} -> {"args":[],"level":"info","source":{"realm":"r"},"text":"t","timestamp":1,"type":"console"}
GenericLogEntry {"level":"info","source":{"realm":"r"},"text":"t","timestamp":1,"type":"console"} + {"args":[1],"method":"log"} -> {"args":[1],"level":"info","method":"log","source":{"realm":"r"},"text":"t","timestamp":1,"type":"console"}
GenericLogEntry {"level":"info","source":{"realm":"r"},"text":"t","timestamp":1,"type":"console"} + {"args":[],"method":"log","x":1} -> {"args":[],"level":"info","method":"log","source":{"realm":"r"},"text":"t","timestamp":1,"type":"console","x":1}
GenericLogEntry {"level":"info","source":{"realm":"r"},"text":"t","timestamp":1,"type":"other"} + {"args":[],"method":"log"} -> {"args":[],"level":"info","method":"log","source":{"realm":"r"},"text":"t","timestamp":1,"type":"other"}
GenericLogEntry {"level":"info","source":{"realm":"r"},"text":"t","timestamp":1,"type":"other"} + {} -> {"level":"info","source":{"realm":"r"},"text":"t","timestamp":1,"type":"other"}
GenericLogEntry {"level":"info","source":{"realm":"r"},"text":"t","timestamp":1,"type":"other"} + {"level":"info"} -> Clash
GenericLogEntry {"level":"info","source":{"realm":"r"},"text":"t","timestamp":1,"type":"other"} + {"source":{}} -> Clash
GenericLogEntry {"level":"info","source":{"realm":"r"},"text":"t","timestamp":1,"type":"other"} + {"text":null} -> Clash
GenericLogEntry {"level":"info","source":{"realm":"r"},"text":"t","timestamp":1,"type":"other"} + {"timestamp":1} -> Clash
GenericLogEntry {"level":"info","source":{"realm":"r"},"text":"t","timestamp":1,"type":"other"} + {"stackTrace":{"callFrames":[]}} -> Clash
GenericLogEntry {"level":"info","source":{"realm":"r"},"text":"t","timestamp":1,"type":"other"} + {"type":"other"} -> Clash
GenericLogEntry {"level":"info","source":{"realm":"r"},"text":"t","timestamp":1,"type":"other"} + {"x":[1.5]} -> TooDeep
the earlier alternative does not take such a member either | GenericLogEntry {"level":"info","source":{"realm":"r"},"text":"t","timestamp":1,"type":"javascript"} + {"x":-0} -> TooDeep
GenericLogEntry {"level":"info","source":{"realm":"r"},"text":"t","timestamp":1,"type":"console"} + {"args":[1.5],"method":"log"} -> TooDeep
the first of two faults | GenericLogEntry {"level":"info","source":{"realm":"r"},"text":"t","timestamp":1,"type":"other"} + {"text":"u","x":1.5} -> Clash
GenericLogEntry {"level":"info","source":{"realm":"r"},"text":"t","timestamp":1,"type":"console"} + {"args":[],"method":"log","text":"u"} -> Clash
the list of an argument of 60 levels has 61, and yet a console entry takes it | GenericLogEntry {"level":"info","source":{"realm":"r"},"text":"t","timestamp":1,"type":"console"} + {"args":[«30 {"type":"array","value":[»«30 ]}»],"method":"log"} -> Shadowed
GenericLogEntry {"level":"info","source":{"realm":"r"},"text":"t","timestamp":1,"type":"console"} + {"args":[«30 {"type":"array","value":[»«30 ]}»]} -> TooDeep
GenericLogEntry {"level":"info","source":{"realm":"r"},"stackTrace":{"callFrames":[]},"text":null,"timestamp":1,"type":"javascript"} + {} -> Shadowed
GenericLogEntry {"level":"info","source":{"realm":"r"},"stackTrace":{"callFrames":[]},"text":null,"timestamp":1,"type":"other"} + {} -> {"level":"info","source":{"realm":"r"},"stackTrace":{"callFrames":[]},"text":null,"timestamp":1,"type":"other"}
GenericLogEntry {"level":"info","source":{"realm":"r"},"text":"t","timestamp":1,"type":"other"} + {"x":«60 [»«60 ]»} -> {"level":"info","source":{"realm":"r"},"text":"t","timestamp":1,"type":"other","x":«60 [»«60 ]»}
GenericLogEntry {"level":"info","source":{"realm":"r"},"text":"t","timestamp":1,"type":"other"} + {"x":«61 [»«61 ]»} -> TooDeep
"#;

/// A remote value, cut at the depth that the word is.
struct Cut;

impl Asked for Cut {
    fn found(alloc: Global, word: &str, text: &str) -> Result<String, Fail> {
        let depth = value_of::<JsUint>(alloc, word)?;
        let value = value_of::<RemoteValue>(alloc, text)?;
        text_of(alloc, value.cut(depth))
    }
}

const CUT: &str = r#"
0,1 {"type":"undefined"} -> same
0,1 {"type":"null"} -> same
0,1 {"type":"string","value":"array"} -> same
0,1 {"type":"number","value":1} -> same
0,1 {"type":"number","value":"NaN"} -> same
0,1 {"type":"boolean","value":true} -> same
0,1 {"type":"bigint","value":"1"} -> same
0,1 {"handle":"h","internalId":"i","type":"regexp","value":{"flags":"g","pattern":"p"}} -> same
0,1 {"handle":"h","internalId":"i","type":"date","value":"2026-01-01"} -> same
0,1 {"handle":"h","internalId":"i","type":"function"} -> same
0,1 {"type":"promise"} -> same
0,1 {"type":"array"} -> same
0,1 {"type":"set"} -> same
0,1 {"type":"object"} -> same
0,1 {"type":"map"} -> same
0 {"type":"array","value":[]} -> {"type":"array"}
0 {"type":"set","value":[]} -> {"type":"set"}
0 {"type":"object","value":[]} -> {"type":"object"}
0 {"type":"map","value":[]} -> {"type":"map"}
1,2 {"type":"array","value":[]} -> same
1,2 {"type":"set","value":[]} -> same
1,2 {"type":"object","value":[]} -> same
1,2 {"type":"map","value":[]} -> same
0 {"type":"array","value":[{"type":"number","value":1}]} -> {"type":"array"}
0 {"type":"set","value":[{"type":"number","value":1}]} -> {"type":"set"}
0 {"type":"object","value":[["a",{"type":"number","value":1}]]} -> {"type":"object"}
0 {"type":"map","value":[["a",{"type":"number","value":1}]]} -> {"type":"map"}
1,2,9007199254740991 {"type":"array","value":[{"type":"number","value":1}]} -> same
1,2,9007199254740991 {"type":"set","value":[{"type":"number","value":1}]} -> same
1,2,9007199254740991 {"type":"object","value":[["a",{"type":"number","value":1}]]} -> same
1,2,9007199254740991 {"type":"map","value":[["a",{"type":"number","value":1}]]} -> same
0 {"type":"array","value":[{"type":"array","value":[{"type":"array","value":[]}]},{"type":"null"},{"type":"set","value":[{"type":"null"}]}]} -> {"type":"array"}
1 {"type":"array","value":[{"type":"array","value":[{"type":"array","value":[]}]},{"type":"null"},{"type":"set","value":[{"type":"null"}]}]} -> {"type":"array","value":[{"type":"array"},{"type":"null"},{"type":"set"}]}
2 {"type":"array","value":[{"type":"array","value":[{"type":"array","value":[]}]},{"type":"null"},{"type":"set","value":[{"type":"null"}]}]} -> {"type":"array","value":[{"type":"array","value":[{"type":"array"}]},{"type":"null"},{"type":"set","value":[{"type":"null"}]}]}
3,4,9007199254740991 {"type":"array","value":[{"type":"array","value":[{"type":"array","value":[]}]},{"type":"null"},{"type":"set","value":[{"type":"null"}]}]} -> same
0 {"type":"object","value":[["a",{"type":"map","value":[["b",{"type":"set","value":[{"type":"array","value":[{"type":"date","value":"d"}]}]}]]}]]} -> {"type":"object"}
1 {"type":"object","value":[["a",{"type":"map","value":[["b",{"type":"set","value":[{"type":"array","value":[{"type":"date","value":"d"}]}]}]]}]]} -> {"type":"object","value":[["a",{"type":"map"}]]}
2 {"type":"object","value":[["a",{"type":"map","value":[["b",{"type":"set","value":[{"type":"array","value":[{"type":"date","value":"d"}]}]}]]}]]} -> {"type":"object","value":[["a",{"type":"map","value":[["b",{"type":"set"}]]}]]}
3 {"type":"object","value":[["a",{"type":"map","value":[["b",{"type":"set","value":[{"type":"array","value":[{"type":"date","value":"d"}]}]}]]}]]} -> {"type":"object","value":[["a",{"type":"map","value":[["b",{"type":"set","value":[{"type":"array"}]}]]}]]}
4,5 {"type":"object","value":[["a",{"type":"map","value":[["b",{"type":"set","value":[{"type":"array","value":[{"type":"date","value":"d"}]}]}]]}]]} -> same
a key that is a value is cut as the value beside it | 1 {"type":"map","value":[[{"type":"array","value":[{"type":"null"}]},{"type":"set","value":[]}]]} -> {"type":"map","value":[[{"type":"array"},{"type":"set"}]]}
2 {"type":"map","value":[[{"type":"array","value":[{"type":"set","value":[]}]},{"type":"set","value":[]}]]} -> {"type":"map","value":[[{"type":"array","value":[{"type":"set"}]},{"type":"set","value":[]}]]}
3 {"type":"map","value":[[{"type":"array","value":[{"type":"set","value":[]}]},{"type":"set","value":[]}]]} -> same
1 {"type":"object","value":[[{"type":"object","value":[["k",{"type":"null"}]]},{"type":"null"}],["k",{"type":"map","value":[]}]]} -> {"type":"object","value":[[{"type":"object"},{"type":"null"}],["k",{"type":"map"}]]}
1 {"type":"map","value":[[{"type":"string","value":"s"},{"type":"null"}],[{"type":"regexp","value":{"pattern":"p"}},{"type":"null"}]]} -> same
a key that is a text stays | 1 {"type":"map","value":[["value",{"type":"array","value":[]}],["type",{"type":"null"}]]} -> {"type":"map","value":[["value",{"type":"array"}],["type",{"type":"null"}]]}
0 {"handle":"h","internalId":"i","type":"array","value":[{"type":"null"}]} -> {"handle":"h","internalId":"i","type":"array"}
0 {"handle":"h","type":"set","value":[]} -> {"handle":"h","type":"set"}
0 {"internalId":"i","type":"object","value":[["k",{"type":"null"}]]} -> {"internalId":"i","type":"object"}
0 {"handle":"h","internalId":"i","type":"map","value":[]} -> {"handle":"h","internalId":"i","type":"map"}
1 {"handle":"h","internalId":"i","type":"map","value":[[{"internalId":"j","type":"set","value":[{"type":"null"}]},{"handle":"g","type":"object","value":[["k",{"type":"null"}]]}]]} -> {"handle":"h","internalId":"i","type":"map","value":[[{"internalId":"j","type":"set"},{"handle":"g","type":"object"}]]}
2 {"handle":"h","internalId":"i","type":"map","value":[[{"internalId":"j","type":"set","value":[{"type":"null"}]},{"handle":"g","type":"object","value":[["k",{"type":"null"}]]}]]} -> same
28 «30 {"type":"array","value":[»«30 ]}» -> «28 {"type":"array","value":[»{"type":"array"}«28 ]}»
29 «30 {"type":"array","value":[»«30 ]}» -> «29 {"type":"array","value":[»{"type":"array"}«29 ]}»
30 «30 {"type":"array","value":[»«30 ]}» -> same
"#;

#[test]
fn cut_at_a_depth(rt: HostRuntime) -> Result<(), Fail> {
    check_rows::<Cut>(rt.alloc(), CUT)
}

#[test]
fn made_of_parts(rt: HostRuntime) -> Result<(), Fail> {
    check_rows::<Made>(rt.alloc(), NESTED_AGAIN)?;
    check_rows::<Made>(rt.alloc(), FURTHER)?;
    check_rows::<Made>(rt.alloc(), MADE)?;
    check_rows::<Made>(rt.alloc(), MADE_ENTRIES)
}

fn checked<P: Nests<L, M>, L: Siblings, M: Siblings>(
    alloc: Global,
    text: &str,
) -> Result<String, Fail> {
    let value = value_of::<Nested<P, L, M>>(alloc, text)?.checked(alloc)?;
    text_of(alloc, value)
}

fn copied<P: Nests<L, M>, L: Siblings, M: Siblings>(
    alloc: Global,
    text: &str,
) -> Result<String, Fail> {
    let copy = value_of::<Nested<P, L, M>>(alloc, text)?.copy(alloc)?;
    text_of(alloc, copy)
}

/// The reference that a local value is.
fn object_in(alloc: Global, text: &str) -> Result<RemoteObjectReference, Fail> {
    match value_of::<LocalValue>(alloc, text)? {
        Nested::Plain(LocalPlain::Reference(Reference::RemoteObject(object))) => Ok(object),
        _ => Err(Fail::from("no reference")),
    }
}

/// The text of a reference, and of its further members.
fn kept(alloc: Global, object: Result<RemoteObjectReference, Fail>) -> Result<String, Fail> {
    let object = object?;
    let ext = written(alloc, Tree::Map(object.ext.copy_members()?))?;
    let text = text_of(alloc, object)?;
    Ok(format!(in alloc; "{text} with {ext}")?)
}

fn with_further(alloc: Global, word: &str, text: &str) -> Result<String, Fail> {
    let (parts, further) = text.split_once(" + ").ok_or("no further members")?;
    let ext = members_of(alloc, further)?;
    match word {
        "ContextTarget" => {
            let of = value_of::<ContextTarget>(alloc, parts)?;
            told(alloc, ContextTarget::new(of.context, of.sandbox, ext))
        }
        "RealmTarget" => {
            let of = value_of::<RealmTarget>(alloc, parts)?;
            told(alloc, RealmTarget::new(alloc, of.realm, ext))
        }
        "SharedReference" => {
            let of = value_of::<SharedReference>(alloc, parts)?;
            told(alloc, SharedReference::new(of.shared_id, of.handle, ext))
        }
        "RemoteObjectReference" => {
            let of = value_of::<RemoteObjectReference>(alloc, parts)?;
            told(
                alloc,
                RemoteObjectReference::new(alloc, of.handle, of.shared_id, ext),
            )
        }
        "GenericLogEntry" => {
            let of = value_of::<GenericLogEntry>(alloc, parts)?;
            told(alloc, GenericLogEntry::new(alloc, of.base, of.kind, ext))
        }
        _ => Err(Fail::from("no such type")),
    }
}
