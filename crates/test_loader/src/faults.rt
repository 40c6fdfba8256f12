//! Texts that are no grammar, by hand.
use crate::tables::check_faults;
use std::test::Fail;

const FAULTS: &str = r##"
1:5 no rule has the name b | a = b
1:7 no group has the name b | a = { b }
1:5 an optional item is left out | a = [? text]
1:5 items before an occurrence are left out | a = [text, *text]
1:16 twice in one alternative stands the member x | a = { x: text, x: int }
1:11 a rule that is nothing but itself: a = b, b = a | a = b b = a
1:19 expected a type, found the group a | a = (x: text) b = a
1:7 expected a group, found the type a | a = { a }
1:24 a group that is nothing but itself: b = c, c = b | a = { b } b = (c) c = (b)
1:7 a member more than once | a = { + x: text }
1:7 further members are `* text => X` | a = { text => int, text => text }
2:5 no rule has the name c | a = text ; a comment~b = c
1:5 a bound of anything but a float is left out | a = text .ge 5
1:5 no such escape | a = "\x"
1:7 no such escape | a = { "\ud800": int }
1:5 a whole number of more than 64 bits | a = 0..18446744073709551616
1:5 a bound of anything but a float is left out | a = (float .ge 0.5) .ge 0.7
1:5 only the last item of an array may have an occurrence | a = [*text, text]
1:5 a choice of groups in an array is left out | a = [text // int]
1:5 a group in an array is left out | a = [2*(text, int)]
1:7 a group more than once in a map | a = { 2*(x: text) }
1:7 a type with no name in a map | a = { "x" }
1:21 two kinds of further members | a = { *text => int, *text => text }
1:23 a rule that is nothing but itself: a = b, b = c, c = a | a = b b = c c = [b] / a
"##;

#[test]
fn faults_have_a_line_and_a_column(rt: HostRuntime) -> Result<(), Fail> {
    check_faults(rt.alloc(), FAULTS)
}
