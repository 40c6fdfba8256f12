//! Texts that are read, and what they are read as, by hand.
use crate::shown::shown;
use std::test::Fail;

// A line is `TEXT | RULES`, where `%` is the end of a line in the text, and `¤` a byte order mark.
const TEXTS: &str = r##"
a = text | a = text
¤a = text | a = text
a=text b=int | a = text; b = int
a = text% % ; a comment% b = int ; another | a = text; b = int
a = "x ; y" ; "z" | a = "x ; y"
a = "\" \\" | a = "\" \\"
a = "é" | a = "é"
a = "" | a = ""
a = -5 b = 0 c = 1.5e-3 d = 1E+9 | a = -5; b = 0; c = 1.5e-3; d = 1E+9
a-b.c_1 = $$x / @y | a-b.c_1 = ($$x / @y)
a = 0..359 | a = 0..359
a = 0.0...360.0 | a = 0.0...360.0
a = -1.0..1.0 / b | a = (-1.0..1.0 / b)
a = 1 .. 2 b = 3 ... 4 | a = 1..2; b = 3...4
a = float .ge 0.5 | a = (float .ge 0.5)
a = (float .ge 0.0352) .default 27.94 | a = (float .ge 0.0352)
a = text .default "x" / null .default null | a = (text / null)
a = b .default -1 | a = b
a = b / c / d | a = (b / (c / d))
a = (b / c) / d | a = ((b / c) / d)
a = ((b)) / c | a = (b / c)
a = {} | a = {()}
a = [] | a = [()]
a = { x: text } | a = {x: text}
a = { x: text, } | a = {x: text}
a = { x: text, y: int } | a = {(x: text, y: int)}
a = { x: text y: int } | a = {(x: text, y: int)}
a = { x: text, y: int, z: b } | a = {(x: text, (y: int, z: b))}
a = { "x-y z": text, "w" => int } | a = {(x-y z: text, w: int)}
a = { ? x: text, * y: int, + z: b, 2* v: c } | a = {(? x: text, (0* y: int, (1* z: b, 2* v: c)))}
a = { * text => any } | a = {0* text => any}
a = { *tstr => any } | a = {0* text => any}
a = { text: b, tstr } | a = {(text: b, tstr)}
a = { b, ? c } | a = {(b, ? c)}
a = { b // c // x: d } | a = {(b // (c // x: d))}
a = { (x: b // y: c), z: d } | a = {(<(x: b // y: c)>, z: d)}
a = { x: b, y: c // z: d } | a = {((x: b, y: c) // z: d)}
a = { // x: b } | a = {(() // x: b)}
a = { ? (x: b, y: c) } | a = {? <(x: b, y: c)>}
a = { x: (b / c) .default b, y: { z: [* d] } } | a = {(x: (b / c), y: {z: [0* d]})}
a = [* text] b = [+ text] c = [3* text] | a = [0* text]; b = [1* text]; c = [3* text]
a = [b, c] | a = [(b, c)]
a = [* [(b / c), d]] | a = [0* [(<(b / c)>, d)]]
a = [(b / c) / d] | a = [((b / c) / d)]
a = [x: b, c] | a = [(x: b, c)]
a = (b) | a = b or group b
a = ((b)) | a = b or group <b>
a = (b / c) | a = (b / c) or group (b / c)
a = ( b, c ) | a = group (b, c)
a = ( b, ) | a = group b
a = ( ? b ) | a = group ? b
a = ( b // c ) | a = group (b // c)
a = ( x: b ) | a = group x: b
a = ((x: b)) | a = group <x: b>
a = () | a = group ()
a = (b) c = (d) / e | a = b or group b; c = (d / e)
a = b a /= c a /= d | a = ((b / c) / d)
a /= b a /= c | a = (b / c)
a = (b) a /= (c) | a = (b / c)
a = (b) a //= (x: c) | a = group (b // <x: c>)
a //= x: b a //= ( y: c ) | a = group (x: b // <y: c>)
a = ( x: b ) a //= ? y: c | a = group (x: b // ? y: c)
"##;

#[test]
fn texts_are_read(rt: HostRuntime) -> Result<(), Fail> {
    for row in TEXTS.trim().lines() {
        let (text, wanted) = row.split_once(" | ").unwrap_or((row, ""));
        let text = text.replace(rt.alloc(), '%', "\n")?;
        let text = text.replace(rt.alloc(), '¤', "\u{feff}")?;
        let found = shown(rt.alloc(), &text)?;
        if found.as_str() != wanted {
            return Err(Fail::new(format_args!("{found} for {row}")));
        }
    }
    Ok(())
}

#[test]
fn carriage_returns_are_blanks(rt: HostRuntime) -> Result<(), Fail> {
    let found = shown(rt.alloc(), "a = text ; b\r\nc = {\r\n\tx: d\r\n}\r\n")?;
    if found.as_str() == "a = text; c = {x: d}" {
        Ok(())
    } else {
        Err(Fail::new(format_args!("{found}")))
    }
}

#[test]
fn an_empty_text_has_no_rules(rt: HostRuntime) -> Result<(), Fail> {
    for text in ["", " ", "\u{feff}", "; a comment"] {
        let found = shown(rt.alloc(), text)?;
        if !found.is_empty() {
            return Err(Fail::new(format_args!("{found} for {text}")));
        }
    }
    Ok(())
}
