//! Forms of rules, by hand, with values that fit them or do not.
use crate::tables::check_grammars;
use std::test::Fail;

const FORMS: &str = r##"
= a = "a\u0062\"" b = { "k\n": a }
a fits "ab\""
a unfit "ab"
b fits {"k\n":"ab\""}
b unfit {"kn":"ab\""}
= text = int a = text
a fits 1
a unfit "x"
= a = -18446744073709551615..-1 b = 1...3 c = uint
a fits -18446744073709551615
a unfit -18446744073709551616
a unfit 0
b fits 2
b unfit 3
b unfit 2.0
c fits 18446744073709551615
c unfit -1
= a = (float .ge 0.5) .lt 2
a fits 0.5
a fits 1
a unfit 2
a unfit 0.25
= a = { ? (x: int // y: int), z: int }
a fits {"z":1}
a fits {"x":1,"z":1}
a fits {"y":1,"z":1}
a unfit {"x":1,"y":1,"z":1}
a unfit {"x":1}
= a = (b) b = (c) c = "x" d = (e) e = (y: int) f = { d }
a fits "x"
f fits {"y":1}
f unfit {}
= a /= "x" a /= "y"
a fits "x"
a fits "y"
a unfit "z"
= a //= (x: int) a //= (y: int) b = { a }
b fits {"x":1}
b fits {"y":1}
b unfit {}
= a = [x: int, (text)] b = [2* text] c = []
a fits [1,"x"]
a unfit [1]
b fits ["x","y","z"]
b unfit ["x"]
c fits []
c unfit [1]
= a = { x: a / null }
a fits {"x":{"x":null}}
a unfit {"x":{}}
"##;

#[test]
fn forms_mean_what_the_standard_says(rt: HostRuntime) -> Result<(), Fail> {
    check_grammars(rt.alloc(), None, FORMS)
}
