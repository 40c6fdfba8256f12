//! Texts that are not read, by hand.
use crate::shown::fault_of;
use bidi_cddl::line_and_column;
use std::test::Fail;

// A line is `LINE:COLUMN WHAT | TEXT`, where `%` is the end of a line in the text.
const FAULTS: &str = r##"
1:1 expected the name of a rule, found = | = text
1:1 expected the name of a rule, found "a" | "a" = text
1:1 expected the name of a rule, found 5 | 5 = text
1:10 expected the name of a rule, found , | a = text , b = int
1:12 expected the name of a rule, found ) | a = (text) )
1:17 expected the name of a rule, found } | a = { x: text } }
1:14 expected the name of a rule, found ] | a = [* text] ]
1:10 expected the name of a rule, found // | a = text // int
1:7 expected the name of a rule, found : | a = b : text
1:20 expected the name of a rule, found .ge | a = number .ge 1.0 .ge 2.0
1:10 expected the name of a rule, found ^ | a = text ^
1:10 expected the name of a rule, found > | a = text >
1:3 expected =, found text | a text
1:2 expected =, found the end | a
1:2 expected =, found : | a: text
1:3 expected =, found => | a => text
1:11 expected =, found , | a = text b,
3:3 expected =, found a | a = text%%b a = text
1:4 expected a type, found the end | a =
1:11 expected a type, found the end | a = text /
1:13 expected a type, found the end | a = ; = text
1:5 expected a type, found = | a = = text
1:5 expected a type, found / | a = / text
1:12 expected a type, found / | a = text / / int
1:5 expected a type, found , | a = , text
1:5 expected a type, found ] | a = ]
1:12 expected a type, found } | a = text / }
1:12 expected a type, found // | a = text / // int
1:5 expected a type, found ? | a = ? text
1:12 expected a type, found * | a = text / * int
1:5 expected a type, found .ge | a = .ge 5.0
1:5 expected a type, found .. | a = ..5
1:10 expected a type, found } | a = { x: }
1:10 expected a type, found , | a = { x: , y: text }
1:7 expected a type, found , | a = { , x: text }
1:16 expected a type, found , | a = { x: text, , y: text }
1:9 expected a type, found ? | a = { ? ? x: text }
1:7 expected a type, found : | a = { : text }
1:9 expected a type, found => | a = { * => text }
1:8 expected a type, found ] | a = [* ]
1:6 expected a type, found ) | a = () / text
1:13 expected a type, found , | a = (text / , int)
1:17 expected a type, found the end | a = { x: text / 
1:10 expected ), found the end | a = (text
1:17 expected ), found the end | a = { ? (x: text
1:10 expected ), found ] | a = (text]
1:16 expected ), found } | a = { x: (text } )
1:15 expected ), found , | a = { x: (text, int) }
1:6 expected }, found the end | a = {
1:13 expected }, found the end | a = {x: text
3:1 expected }, found the end | a = {x: text,%  y: int%
1:15 expected }, found ) | a = { x: text )
1:15 expected }, found ] | a = { x: text ] b = int
2:3 expected }, found = | a = { x: text%b = int
1:28 expected }, found .default | a = { x: text .default "x" .default "y" }
1:17 expected }, found : | a = { "x": text : int }
1:12 expected ], found the end | a = [* text
1:11 expected ], found } | a = [text }
4:3 expected ], found = | a = [text%%%b = int
1:15 expected a number, found "x" | a = float .ge "x"
1:15 expected a number, found b | a = float .lt b
1:18 expected a value, found the end | a = text .default
1:19 expected a value, found { | a = text .default {}
1:24 expected a value, found } | a = { x: text .default }
1:10 the control .size is left out | a = text .size 3
1:10 the control .regexp is left out | a = text .regexp "[a-z]*"
1:15 the control .bits is left out | a = { x: uint .bits b }
1:7 the control .within is left out | a = b .within c
2:3 the control .and is left out | a = b%  .and c
1:11 the control .cbor is left out | a = bytes .cbor b
1:6 a range of anything but two numbers is left out | a = 1..text
1:6 a range of anything but two numbers is left out | a = b..5
1:9 a range of anything but two numbers is left out | a = "x" .. "y"
1:6 a range of anything but two numbers is left out | a = 0..
1:10 a range of anything but two numbers is left out | a = [1.5 ... b]
1:9 an upper bound of an occurrence is left out | a = { 2*3 x: text }
1:7 an upper bound of an occurrence is left out | a = [*7 text]
1:2 generics are left out | a<t> = text
1:6 generics are left out | a = b<text>
1:11 generics are left out | a = { x: b<text, int> }
1:1 sockets are left out | $a /= text
2:1 sockets are left out | a = text%$$b //= ( x: text )
1:5 tags are left out | a = #6.1(text)
1:10 tags are left out | a = { x: # }
1:5 enumerations of a group are left out | a = &b
1:12 enumerations of a group are left out | a = text / &( x: 1 )
1:5 unwrapping is left out | a = ~b
1:8 unwrapping is left out | a = [* ~b]
1:6 byte strings are left out | a = h'00ff'
1:5 byte strings are left out | a = 'abc'
1:11 cuts are left out | a = { "x" ^ => text }
1:13 cuts are left out | a = { ? text^ => text }
1:9 a key other than a string or text is left out | a = { * int => text }
1:7 a key other than a string or text is left out | a = { 5 => text }
1:9 a key other than a string or text is left out | a = { ? (text) => text }
1:7 a key other than a string or text is left out | a = { text / "b" => text }
1:5 a string without its end | a = "x
2:10 a string without its end | a = "x"%b = { y: "z%}
1:5 a string without its end | a = "x\"
2:5 a string without its end | ; a comment with a "%a = "
1:5 expected a token | a = !
1:10 expected a token | a = { x: - 5 }
1:6 expected a token | a = b. c
1:10 expected a token | a = text \ int
1:5 expected a token | a = é
1:6 expected a token | a = 5. 5
2:1 a rule of that name stands above | a = text%a = int
1:18 a rule of that name stands above | a = text b = int a = text
1:17 a rule of that name stands above | a = ( x: text ) a = ( y: text )
1:17 the rule of that name is a group | a = ( x: text ) a /= text
1:10 the rule of that name is a type | a = text a //= ( x: text )
1:10 expected a type, found a group | a = text a /= ( x: text )
3:1 the rule of that name is a type | a = { x: text }%%a //= ( y: text )
"##;

#[test]
fn faults_have_a_line_and_a_column(rt: HostRuntime) -> Result<(), Fail> {
    for row in FAULTS.trim().lines() {
        let (wanted, text) = row.split_once(" | ").unwrap_or((row, ""));
        let text = text.replace(rt.alloc(), '%', "\n")?;
        let found = fault_of(rt.alloc(), &text)?;
        if found.as_str() != wanted {
            return Err(Fail::new(format_args!("{found} for {row}")));
        }
    }
    Ok(())
}

#[test]
fn brackets_nest_64_deep(rt: HostRuntime) -> Result<(), Fail> {
    let alloc = rt.alloc();
    let open = "[".repeat(alloc, 64)?;
    let close = "]".repeat(alloc, 64)?;
    let deep = format!(in alloc; "a = {open}text{close}")?;
    let deeper = format!(in alloc; "a = [{open}text{close}]")?;
    wants(&fault_of(alloc, &deep)?, "read")?;
    wants(
        &fault_of(alloc, &deeper)?,
        "1:69 more than 64 nested brackets",
    )
}

#[test]
fn rules_are_4096_at_most(rt: HostRuntime) -> Result<(), Fail> {
    let alloc = rt.alloc();
    let mut text = String::new(alloc);
    for i in 0..4096 {
        text.push_str(format!(in alloc; "r{i} = text\n")?.as_str())?;
    }
    text.push_str("s = text")?;
    wants(&fault_of(alloc, &text)?, "4097:1 more than 4096 rules")
}

#[test]
fn a_text_has_one_mebibyte_at_most(rt: HostRuntime) -> Result<(), Fail> {
    let alloc = rt.alloc();
    let mut text = " ".repeat(alloc, 1_048_568)?;
    text.push_str("a = text")?;
    wants(&fault_of(alloc, &text)?, "read")?;
    text.push_str(" ")?;
    wants(
        &fault_of(alloc, &text)?,
        "1:1048577 a text of more than 1 MiB",
    )
}

#[test]
fn a_column_counts_bytes(_: HostRuntime) -> Result<(), Fail> {
    let places = [
        (0, 1, 1),
        (2, 1, 3),
        (3, 2, 1),
        (5, 2, 3),
        (6, 3, 1),
        (9, 3, 4),
    ];
    for (at, line, column) in places {
        if line_and_column("é\nab\ncde", at) != (line, column) {
            return Err(Fail::new(format_args!("the place of {at}")));
        }
    }
    Ok(())
}

fn wants(found: &str, wanted: &str) -> Result<(), Fail> {
    if found == wanted {
        Ok(())
    } else {
        Err(Fail::new(format_args!("{found} for {wanted}")))
    }
}
