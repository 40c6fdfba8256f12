//! The forms of the grammar, each at a type that has it: `docs/FORMATS.md`.
use bidi_params::{CloseParameters, UnsubscribeParameters};
use bidi_scripts::{Ownership, RealmInfo, StackFrame};
use bidi_shape::{Bare, Either, Ext, OneOrMore, Shape, ShapeFault, Tag, Typed};
use bidi_tree::{JsInt, JsUint};
use bidi_values::Primitive;
use std::alloc::Global;
use std::test::Fail;
use testing::rows::{Asked, check_rows};
use testing::texts::{again, members_of, owned, tree_of};

/// What a text reads as, by the name of a type.
struct Shapes;

impl Asked for Shapes {
    fn found(alloc: Global, word: &str, text: &str) -> Result<String, Fail> {
        match word {
            "text" => again::<String>(alloc, text),
            "bool" => again::<bool>(alloc, text),
            "js-uint" => again::<JsUint>(alloc, text),
            "js-int" => again::<JsInt>(alloc, text),
            "CloseParameters" => again::<CloseParameters>(alloc, text),
            "RealmInfo" => again::<RealmInfo>(alloc, text),
            "StackFrame" => again::<StackFrame>(alloc, text),
            "list" => again::<Vec<String>>(alloc, text),
            "one-or-more" => again::<OneOrMore<String>>(alloc, text),
            "pair" => again::<(String, JsUint)>(alloc, text),
            "nullable" => again::<Option<String>>(alloc, text),
            "Ownership" => again::<Ownership>(alloc, text),
            "RealmInfo/CloseParameters" => again::<Either<RealmInfo, CloseParameters>>(alloc, text),
            "first-is-RealmInfo" => alternative::<RealmInfo, CloseParameters>(alloc, text),
            "first-is-CloseParameters" => alternative::<CloseParameters, RealmInfo>(alloc, text),
            "UnsubscribeParameters" => again::<UnsubscribeParameters>(alloc, text),
            "bare" => again::<Bare<UndefinedTag>>(alloc, text),
            "typed" => again::<Typed<BooleanTag, bool>>(alloc, text),
            "Primitive" => again::<Primitive>(alloc, text),
            "further" => further(alloc, text),
            _ => Err(Fail::from("no such type")),
        }
    }
}

struct UndefinedTag;

impl Tag for UndefinedTag {
    ghost use Rattle.std.specs.Prelude.{codes};

    ghost tag = { codes "undefined" };

    fn tag() -> &'static str {
        "undefined"
    }
}

struct BooleanTag;

impl Tag for BooleanTag {
    ghost use Rattle.std.specs.Prelude.{codes};

    ghost tag = { codes "boolean" };

    fn tag() -> &'static str {
        "boolean"
    }
}

/// Which of two types a text reads as.
fn alternative<A: Shape, B: Shape>(alloc: Global, text: &str) -> Result<String, Fail> {
    owned(
        alloc,
        name_of(Either::<A, B>::from_tree(alloc, &tree_of(alloc, text)?)),
    )
}

fn name_of<A: Shape, B: Shape>(read: Result<Either<A, B>, ShapeFault>) -> &'static str {
    match read {
        Ok(Either::First(_)) => "First",
        Ok(Either::Second(_)) => "Second",
        Err(_) => "neither",
    }
}

/// Whether members have none of the names `events` and `contexts`.
fn further(alloc: Global, text: &str) -> Result<String, Fail> {
    match Ext::new(members_of(alloc, text)?, &["events", "contexts"]) {
        Ok(_) => owned(alloc, "free"),
        Err(clash) => Ok(format!(in alloc; "{clash:?}")?),
    }
}

const SCALARS: &str = r#"
text "a" -> same
text 1 -> NoFit
text null -> NoFit
bool true -> same
bool false -> same
bool 0 -> NoFit
js-uint 0 -> same
js-uint 9007199254740991 -> same
js-uint 9007199254740992 -> NoFit
js-uint -1 -> NoFit
js-uint 1.0 -> NoFit
js-int -9007199254740991 -> same
js-int 7 -> same
js-int -9007199254740992 -> NoFit
js-int "7" -> NoFit
"#;

const MAPS: &str = r#"
CloseParameters {"context":"c"} -> same
CloseParameters {"promptUnload":true,"context":"c"} -> {"context":"c","promptUnload":true}
CloseParameters {"z":[1],"context":"c","a":{}} -> {"a":{},"context":"c","z":[1]}
CloseParameters {"context":"c","promptUnload":1} -> NoFit
CloseParameters {"context":"c","promptUnload":null} -> NoFit
CloseParameters {"context":"c","z":1.5} -> NoFit
CloseParameters {"promptUnload":true} -> NoFit
CloseParameters [] -> NoFit
RealmInfo {"type":"window","realm":"r","origin":"o","context":"c"} -> {"context":"c","origin":"o","realm":"r","type":"window"}
RealmInfo {"type":"worker","realm":"r","origin":"o","context":"c"} -> NoFit
RealmInfo {"realm":"r","origin":"o","context":"c"} -> NoFit
StackFrame {"url":"u","lineNumber":2,"functionName":"f","columnNumber":1} -> {"columnNumber":1,"functionName":"f","lineNumber":2,"url":"u"}
StackFrame {"url":"u","lineNumber":2,"functionName":"f","columnNumber":1,"x":null} -> NoFit
StackFrame {"url":"u","lineNumber":-2,"functionName":"f","columnNumber":1} -> NoFit
further {"x":1} -> free
further {} -> free
further {"x":1,"events":[]} -> Clash
"#;

const LISTS: &str = r#"
list [] -> same
list ["a","b"] -> same
list ["a",1] -> NoFit
list {} -> NoFit
one-or-more [] -> NoFit
one-or-more ["a"] -> same
one-or-more [null] -> NoFit
one-or-more null -> NoFit
pair ["a",1] -> same
pair [1,"a"] -> NoFit
pair ["a"] -> NoFit
pair ["a",1,2] -> NoFit
pair "a" -> NoFit
"#;

const CHOICES: &str = r#"
nullable null -> same
nullable "a" -> same
nullable 1 -> NoFit
Ownership "root" -> same
Ownership "none" -> same
Ownership "all" -> NoFit
Ownership null -> NoFit
first of two that fit | first-is-CloseParameters {"context":"c","realm":"r","origin":"o","type":"window"} -> First
first of two that fit, turned | first-is-RealmInfo {"context":"c","realm":"r","origin":"o","type":"window"} -> First
second, where the first does not fit | first-is-RealmInfo {"context":"c"} -> Second
RealmInfo/CloseParameters {"context":"c"} -> same
RealmInfo/CloseParameters {} -> NoFit
UnsubscribeParameters {"subscriptions":["a"]} -> same
UnsubscribeParameters {"events":["b"]} -> same
UnsubscribeParameters {"subscriptions":["a"],"events":["b"]} -> {"events":["b"],"subscriptions":["a"]}
UnsubscribeParameters {"subscriptions":[],"events":["b"]} -> {"events":["b"],"subscriptions":[]}
UnsubscribeParameters {"subscriptions":[],"events":[]} -> NoFit
UnsubscribeParameters {} -> NoFit
UnsubscribeParameters "subscriptions" -> NoFit
"#;

const TAGGED: &str = r#"
bare {"type":"undefined"} -> same
bare {"type":"null"} -> NoFit
bare {"type":"undefined","value":1} -> NoFit
bare {} -> NoFit
typed {"value":true,"type":"boolean"} -> {"type":"boolean","value":true}
typed {"type":"boolean"} -> NoFit
typed {"type":"boolean","value":1} -> NoFit
typed {"type":"string","value":true} -> NoFit
typed {"type":"boolean","value":true,"x":1} -> NoFit
Primitive {"type":"undefined"} -> same
Primitive {"type":"boolean","value":false} -> same
Primitive {"type":"undefined","value":false} -> NoFit
"#;

#[test]
fn each_form_takes_what_fits(rt: HostRuntime) -> Result<(), Fail> {
    check_rows::<Shapes>(rt.alloc(), SCALARS)?;
    check_rows::<Shapes>(rt.alloc(), MAPS)?;
    check_rows::<Shapes>(rt.alloc(), LISTS)?;
    check_rows::<Shapes>(rt.alloc(), CHOICES)?;
    check_rows::<Shapes>(rt.alloc(), TAGGED)
}
