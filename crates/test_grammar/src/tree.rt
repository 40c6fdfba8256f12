//! Numbers, trees and JSON text: RFC 8259, and `docs/FORMATS.md` on what is read.
use bidi_tree::{
    JsInt, JsUint, Members, Outline, OutlineMembers, ReadFault, Tree, are_whole, find_member,
    is_parsed_whole, outline_of, outline_parsed, own_outline, parse, put_member, put_outline, read,
    write, write_outline,
};
use json::Scratch;
use std::alloc::Global;
use std::test::Fail;
use testing::rows::{Asked, check_rows};
use testing::texts::{members_of, tree_of, written};

struct Trees;

impl Asked for Trees {
    fn found(alloc: Global, word: &str, text: &str) -> Result<String, Fail> {
        match word {
            "integer" => integer(alloc, text),
            "natural" => natural(alloc, text),
            "number" => number(alloc, text),
            "kind" => kind(alloc, text),
            "part" => part(alloc, text),
            "member" => member(alloc, text),
            "text" => again(alloc, text),
            "limit" => within(alloc, text),
            "levels" => levels(alloc, text),
            "put" => put(alloc, text),
            "whole" => whole(alloc, text),
            "copies" => copies(alloc, text),
            "outlined" => outlined(alloc, text),
            "parsed" => parsed(alloc, text),
            "placed" => placed(alloc, text),
            "outline" => outline_within(alloc, text),
            _ => Err(Fail::from("no such word")),
        }
    }
}

// ---- numbers

const NUMBERS: &str = "
zero | integer 0 -> Some(0)
the greatest | integer 9007199254740991 -> Some(9007199254740991)
one past the greatest | integer 9007199254740992 -> None
the least | integer -9007199254740991 -> Some(-9007199254740991)
one past the least | integer -9007199254740992 -> None
the greatest of 64 bits | integer 9223372036854775807 -> None
the least of 64 bits | integer -9223372036854775808 -> None
zero | natural 0 -> Some(0)
the greatest | natural 9007199254740991 -> Some(9007199254740991)
one past the greatest | natural 9007199254740992 -> None
the greatest of 64 bits | natural 18446744073709551615 -> None
zero | number 0 -> Ok(Int(JsInt { value: 0 }))
below zero | number -1 -> Ok(Int(JsInt { value: -1 }))
2^53 - 1 | number 9007199254740991 -> Ok(Int(JsInt { value: 9007199254740991 }))
1 - 2^53 | number -9007199254740991 -> Ok(Int(JsInt { value: -9007199254740991 }))
2^53 | number 9007199254740992 -> Ok(Odd)
-2^53 | number -9007199254740992 -> Ok(Odd)
2^63 | number 9223372036854775808 -> Ok(Odd)
-2^63 | number -9223372036854775808 -> Ok(Odd)
-2^63 - 1 | number -9223372036854775809 -> Ok(Odd)
2^64 - 1 | number 18446744073709551615 -> Ok(Odd)
2^64 | number 18446744073709551616 -> Ok(Odd)
minus zero | number -0 -> Ok(Odd)
a fraction that is 0 | number 1.0 -> Ok(Odd)
an exponent | number 1e2 -> Ok(Odd)
another exponent | number 1e3 -> Ok(Odd)
near the greatest float | number 1e308 -> Ok(Odd)
below the least float | number 1e-400 -> Ok(Odd)
past the greatest float | number 1e400 -> Err(NotJson)
310 digits | number 1«309 0» -> Err(NotJson)
a zero in front | number 01 -> Err(NotJson)
no digit | number - -> Err(NotJson)
";

#[test]
fn numbers_are_whole_up_to_2_to_the_53(rt: HostRuntime) -> Result<(), Fail> {
    check_rows::<Trees>(rt.alloc(), NUMBERS)
}

fn integer(alloc: Global, text: &str) -> Result<String, Fail> {
    let number = JsInt::new(text.parse()?).map(|number| number.value);
    Ok(format!(in alloc; "{number:?}")?)
}

fn natural(alloc: Global, text: &str) -> Result<String, Fail> {
    let number = JsUint::new(text.parse()?).map(|number| number.value);
    Ok(format!(in alloc; "{number:?}")?)
}

fn number(alloc: Global, text: &str) -> Result<String, Fail> {
    Ok(format!(in alloc; "{:?}", read(alloc, text, None))?)
}

// ---- kinds and parts

/// What a tree answers, which is whether it is null, and its truth value, number, text, items and members; the part and the
/// member of a name.
const PARTS: &str = r#"
null | kind null -> (true, None, None, None, None, None)
a truth value | kind false -> (false, Some(false), None, None, None, None)
another truth value | kind true -> (false, Some(true), None, None, None, None)
a whole number | kind 7 -> (false, None, Some(JsInt { value: 7 }), None, None, None)
a number below zero | kind -5 -> (false, None, Some(JsInt { value: -5 }), None, None, None)
an odd number | kind 7.5 -> (false, None, None, None, None, None)
an empty text | kind "" -> (false, None, None, Some(""), None, None)
a text | kind "x" -> (false, None, None, Some("x"), None, None)
an empty list | kind [] -> (false, None, None, None, Some([]), None)
a list | kind [null,"x"] -> (false, None, None, None, Some([Null, Text("x")]), None)
a map | kind {} -> (false, None, None, None, None, Some({}))
a number | part id {"id":-5,"ok":true,"list":[null,"x"]} -> Some(Int(JsInt { value: -5 }))
a truth value | part ok {"id":-5,"ok":true,"list":[null,"x"]} -> Some(Bool(true))
the beginning of a name | part i {"id":-5,"ok":true,"list":[null,"x"]} -> None
a list | part list {"id":-5,"ok":true,"list":[null,"x"]} -> Some(List([Null, Text("x")]))
no map | part x "x" -> None
a list | member list {"id":-5,"ok":true,"list":[null,"x"]} -> Some(List([Null, Text("x")]))
another case | member ID {"id":-5,"ok":true,"list":[null,"x"]} -> None
"#;

#[test]
fn each_kind_answers_for_itself_and_its_parts(rt: HostRuntime) -> Result<(), Fail> {
    check_rows::<Trees>(rt.alloc(), PARTS)
}

fn kind(alloc: Global, text: &str) -> Result<String, Fail> {
    let tree = tree_of(alloc, text)?;
    let answers = (
        tree.is_null(),
        tree.as_bool(),
        tree.as_int(),
        tree.as_text(),
        tree.as_list(),
        tree.as_map(),
    );
    Ok(format!(in alloc; "{answers:?}")?)
}

fn part(alloc: Global, asked: &str) -> Result<String, Fail> {
    let (name, text) = asked.split_once(' ').ok_or("no name")?;
    Ok(format!(in alloc; "{:?}", tree_of(alloc, text)?.get(name))?)
}

fn member(alloc: Global, asked: &str) -> Result<String, Fail> {
    let (name, text) = asked.split_once(' ').ok_or("no name")?;
    Ok(format!(in alloc; "{:?}", find_member(&members_of(alloc, text)?, name))?)
}

// ---- texts

const TEXTS: &str = r#"
null | text null -> same
truth values | text [true,false] -> same
an empty list | text [] -> same
an empty map | text {} -> same
whole numbers | text [0,-17,9007199254740991] -> same
a repeated name | text {"a":1,"b":2,"a":3} -> {"a":3,"b":2}
a name repeated by an escape | text {"a":1,"\u0061":2} -> {"a":2}
a discarded odd number | text {"a":1.5,"a":2} -> {"a":2}
a discarded number too large | text {"a":1e400,"a":2} -> the text is not JSON
an odd number in a list | text [1.5] -> not writable
an odd number in a map | text {"a":{"b":-0}} -> not writable
an unclosed map | text {"id":1 -> the text is not JSON
no value | text  -> the text is not JSON
blanks alone | text   -> the text is not JSON
two values | text 1 2 -> the text is not JSON
a comma at the end | text [1,] -> the text is not JSON
a high surrogate alone | text "\ud800" -> the text is not JSON
a low surrogate alone | text "\udc00" -> the text is not JSON
short escapes | text "\"\\\b\f\n\r\t" -> same
long escapes | text "\u0000\u000B\u001F" -> "\u0000\u000b\u001f"
an escape in a name | text {"\u000a\u0001":0} -> {"\n\u0001":0}
two surrogates | text "\ud83d\ude00" -> "😀"
names in order of their bytes | text {"b":1,"\ud83d\ude00":2,"a":3,"\uff61":4,"":5,"ab":6,"B":7} -> {"":5,"B":7,"a":3,"ab":6,"b":1,"｡":4,"😀":2}
"#;

/// Texts with characters that have no picture. `␊` stands for a line feed.
const UNSEEN: &str = "
blanks | text  \t␊\r{ \"b\" :\t[ true ,␊ null ] , \"a\" : \"x\" }\r␊\t  -> {\"a\":\"x\",\"b\":[true,null]}
a byte order mark | text \u{feff}1 -> the text is not JSON
another blank | text \u{a0}1 -> the text is not JSON
a line feed in a text | text \"a␊b\" -> the text is not JSON
a control character in a name | text {\"\u{1}\":1} -> the text is not JSON
what stays as it is | text \"\\/\\u007f\\u00e9\\u2028\" -> \"/\u{7f}\u{e9}\u{2028}\"
";

/// Limits of bytes. So many levels: whether they are written, and whether they are whole within as many and within one less.
const LIMITS: &str = r#"
at the limit | limit 3 [1] -> [1]
one byte more | limit 2 [1] -> the text is longer than its limit
a letter of two bytes at the limit | limit 4 "é" -> "é"
a letter of two bytes past it | limit 3 "é" -> the text is longer than its limit
a blank past the limit | limit 1 1  -> the text is longer than its limit
no JSON past the limit | limit 1 [[ -> the text is longer than its limit
no JSON at the limit | limit 1 [ -> the text is not JSON
nothing at no byte | limit 0  -> the text is not JSON
a long text at its limit | limit 1100003 [«1100001  »] -> []
a long text past its limit | limit 1100002 [«1100001  »] -> the text is longer than its limit
a long text with no limit | text [«1100001  »] -> []
1 level of lists | levels 1 «1 [»«1 ]» -> Ok((true, true, false))
1 level of maps | levels 1 «1 {"a":»0«1 }» -> Ok((true, true, false))
100 levels of lists | levels 100 «100 [»«100 ]» -> Ok((true, true, false))
100 levels of maps | levels 100 «100 {"a":»0«100 }» -> Ok((true, true, false))
101 levels of lists | levels 101 «101 [»«101 ]» -> Ok((false, true, false))
101 levels of maps | levels 101 «101 {"a":»0«101 }» -> Ok((false, true, false))
127 levels of lists | levels 127 «127 [»«127 ]» -> Ok((false, true, false))
127 levels of maps | levels 127 «127 {"a":»0«127 }» -> Ok((false, true, false))
128 levels of lists | levels 128 «128 [»«128 ]» -> Err(NotJson)
128 levels of maps | levels 128 «128 {"a":»0«128 }» -> Err(NotJson)
"#;

#[test]
fn texts_are_read_within_limits_and_written_compactly(rt: HostRuntime) -> Result<(), Fail> {
    check_rows::<Trees>(rt.alloc(), TEXTS)?;
    check_rows::<Trees>(rt.alloc(), UNSEEN)?;
    check_rows::<Trees>(rt.alloc(), LIMITS)
}

fn again(alloc: Global, text: &str) -> Result<String, Fail> {
    let text = text.replace(alloc, "␊", "\n")?;
    compact(alloc, read(alloc, text.as_str(), None))
}

fn within(alloc: Global, asked: &str) -> Result<String, Fail> {
    let (limit, text) = asked.split_once(' ').ok_or("no limit")?;
    compact(alloc, read(alloc, text, Some(limit.parse()?)))
}

/// The compact text of what was read, or the fault.
fn compact(alloc: Global, answer: Result<Tree, ReadFault>) -> Result<String, Fail> {
    match answer {
        Ok(tree) => written(alloc, tree),
        Err(fault) => Ok(fault.to_string(alloc)?),
    }
}

fn levels(alloc: Global, asked: &str) -> Result<String, Fail> {
    let (count, text) = asked.split_once(' ').ok_or("no count")?;
    let count = count.parse::<usize>()?;
    let answer = read(alloc, text, None).map(|tree| (
        tree.is_writable(),
        tree.is_whole(count),
        tree.is_whole(count.saturating_sub(1)),
    ));
    Ok(format!(in alloc; "{answer:?}")?)
}

// ---- maps and copies

/// Members in the order in which they are put. Whether members are whole within so many levels. Whether a copy of the first
/// tree equals the second.
const MAPS: &str = r#"
the first | put b=1 -> {"b":1}
before it | put b=1 a=2 -> {"a":2,"b":1}
after both | put b=1 a=2 c=[] -> {"a":2,"b":1,"c":[]}
in place of one | put b=1 a=2 c=[] b=null -> {"a":2,"b":null,"c":[]}
no member | whole 0 {} -> true
a number | whole 0 {"a":1} -> true
an odd number | whole 9 {"a":1,"b":1.5} -> false
a level at its limit | whole 1 {"a":1,"b":[]} -> true
a level past it | whole 0 {"a":1,"b":[]} -> false
two levels at their limit | whole 2 {"a":[{}]} -> true
two levels past it | whole 1 {"a":[{}]} -> false
null | copies null null -> true
a truth value | copies true true -> true
a whole number | copies -3 -3 -> true
an odd number | copies 1.5 1.5 -> true
a text | copies "x" "x" -> true
a list | copies [1,[],{"b":[2.5,"c"],"a":{}}] [1,[],{"b":[2.5,"c"],"a":{}}] -> true
another order | copies [1,2] [2,1] -> false
"#;

#[test]
fn members_are_put_in_order_and_copies_are_equal(rt: HostRuntime) -> Result<(), Fail> {
    check_rows::<Trees>(rt.alloc(), MAPS)
}

fn put(alloc: Global, asked: &str) -> Result<String, Fail> {
    let mut members = Members::new(alloc);
    for member in asked.split(' ') {
        let (name, text) = member.split_once('=').ok_or("no member")?;
        let name = String::from_str(alloc, name)?;
        put_member(&mut members, name, tree_of(alloc, text)?)?;
    }
    written(alloc, Tree::Map(members))
}

fn whole(alloc: Global, asked: &str) -> Result<String, Fail> {
    let (limit, text) = asked.split_once(' ').ok_or("no limit")?;
    let limit = limit.parse()?;
    Ok(are_whole(&members_of(alloc, text)?, limit).to_string(alloc)?)
}

fn copies(alloc: Global, asked: &str) -> Result<String, Fail> {
    let (first, second) = asked.split_once(' ').ok_or("no second text")?;
    let copy = tree_of(alloc, first)?.clone()?;
    Ok((copy == tree_of(alloc, second)?).to_string(alloc)?)
}

// ---- outlines

const DRAFTS: &str = r#"
null | outlined null -> null
a truth value | outlined true -> true
the least whole number | outlined -9007199254740991 -> -9007199254740991
an odd number | outlined 1.5 -> not writable
a text with a line feed | outlined "a\nb" -> "a\nb"
an empty list | outlined [] -> []
an empty map | outlined {} -> {}
lists and maps in one another | outlined {"b":[1,{"d":2,"c":[]}],"a":"x"} -> {"a":"x","b":[1,{"c":[],"d":2}]}
null | parsed null -> null
a text with a line feed | parsed "a\nb" -> "a\nb"
blanks and members in another order | parsed { "b" : [1,{"d":2,"c":[]}], "a":"x" } -> {"a":"x","b":[1,{"c":[],"d":2}]}
a name that comes again | parsed {"a":1,"b":2,"a":3} -> {"a":3,"b":2}
an odd number | parsed [1.5] -> not whole
an odd number that another takes the place of | parsed {"a":1.5,"a":1} -> not whole
as many levels | parsed «100 [»«100 ]» -> same
one level more | parsed «101 [»«101 ]» -> not whole
a member | placed a=1 -> a=1
above all others | placed a=1 b=2 -> a=1 b=2
below all others | placed b=1 a=2 -> a=2 b=1
between others | placed a=1 c=2 b=3 -> a=1 b=3 c=2
a name that is there | placed a=1 b=2 a=3 -> a=3 b=2
capitals come first | placed a=1 B=2 -> B=2 a=1
the beginning of a name comes first | placed ab=1 a=2 -> a=2 ab=1
a text has no level | outline 0 "x" -> true
an empty list has one | outline 0 [] -> false
within it | outline 1 [] -> true
the deepest member counts | outline 2 {"a":[1],"b":[[]]} -> false
as many as it has | outline 3 {"a":[1],"b":[[]]} -> true
"#;

#[test]
fn outlines_stand_for_trees(rt: HostRuntime) -> Result<(), Fail> {
    check_rows::<Trees>(rt.alloc(), DRAFTS)
}

/// The text of the outline of a text's tree, which is that tree once it owns its texts.
fn outlined(alloc: Global, text: &str) -> Result<String, Fail> {
    let tree = tree_of(alloc, text)?;
    if !tree.is_writable() {
        return Ok(String::from_str(alloc, "not writable")?);
    }
    let outline = outline_of(alloc, &tree)?;
    if own_outline(alloc, &outline)? != tree {
        return Err(Fail::from("another tree"));
    }
    Ok(write_outline(alloc, &outline)?)
}

/// The text of the outline of a text's value, where that is known to be whole.
fn parsed(alloc: Global, text: &str) -> Result<String, Fail> {
    let mut scratch = Scratch::new(alloc);
    let Ok(value) = parse(alloc, text, None, &mut scratch) else {
        return Err(Fail::from("not JSON"));
    };
    if !is_parsed_whole(&value, 100) {
        return Ok(String::from_str(alloc, "not whole")?);
    }
    let outline = outline_parsed(alloc, &value)?;
    Ok(write_outline(alloc, &outline)?)
}

/// The members in their order, after whole numbers were put at names.
fn placed(alloc: Global, asked: &str) -> Result<String, Fail> {
    let mut members = OutlineMembers::new(alloc);
    for member in asked.split(' ') {
        put_number(&mut members, member)?;
    }
    if members.len() != members.as_slice().len() {
        return Err(Fail::from("another count"));
    }
    numbers_in(alloc, members.as_slice())
}

fn put_number<'a>(members: &mut OutlineMembers<'a>, member: &'a str) -> Result<(), Fail> {
    let (name, number) = member.split_once('=').ok_or("no member")?;
    let number = JsInt::new(number.parse()?).ok_or("out of range")?;
    Ok(put_outline(members, name, Outline::Int(number))?)
}

fn numbers_in(alloc: Global, members: &[(&str, Outline<'_>)]) -> Result<String, Fail> {
    let mut told = String::new(alloc);
    for (name, outline) in members {
        let Outline::Int(number) = outline else {
            return Err(Fail::from("another outline"));
        };
        if !told.is_empty() {
            told.push_str(" ")?;
        }
        write!(told, "{name}={}", number.value)?;
    }
    Ok(told)
}

fn outline_within(alloc: Global, asked: &str) -> Result<String, Fail> {
    let (limit, text) = asked.split_once(' ').ok_or("no limit")?;
    let tree = tree_of(alloc, text)?;
    let limit = limit.parse()?;
    Ok(outline_of(alloc, &tree)?.is_within(limit).to_string(alloc)?)
}

// ---- allocations that fail

const LONG: &str =
    r#"{"a":[1,"two\n",{"b":null,"c":[]}],"d":{"e":"a text that outgrows the room that it is given at first, since it has more than a hundred bytes by itself"}}"#;

/// However many allocations fail, the answer is the memory fault or the right one.
#[test]
fn reads_and_writes_where_allocations_fail(rt: HostRuntime) {
    let is_right = match read(rt.alloc(), LONG, Some(200)) {
        Ok(tree) => is_kept(rt.alloc(), tree),
        Err(fault) => fault == ReadFault::NoMemory,
    };
    assert!(rt; is_right);
}

/// Whether what is copied and written of the tree is the same, as far as memory is there.
fn is_kept(alloc: Global, tree: Tree) -> bool {
    if !tree.is_writable() {
        return false;
    }
    let is_copied = match tree.clone() {
        Ok(copy) => copy == tree,
        Err(_) => true,
    };
    let is_written = match write(alloc, &tree) {
        Ok(text) => text.as_str() == LONG,
        Err(_) => true,
    };
    is_copied && is_written
}
