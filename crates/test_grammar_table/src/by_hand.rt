//! Rows by hand.
use crate::tables::check_table;
use std::test::Fail;

const SCALARS: &str = r#"
= the types of RFC 8610, appendix D
text
bool
null
any
whole 0 18446744073709551615
whole -18446744073709551615 18446744073709551615
number - -
exactly tab
true
0 9 fits ""
0 9 unfit 5
1 9 fits false
1 9 unfit "true"
2 9 fits null
2 9 unfit 0
3 9 fits {"x":[1e999]}
4 9 fits 0
4 9 fits -0
4 9 unfit -1
4 9 unfit 1.0
4 9 unfit 1e2
4 9 fits 18446744073709551615
4 9 unfit 18446744073709551616
5 9 fits -18446744073709551615
6 9 fits 1.0
6 9 fits 1e999
6 9 unfit "1"
7 9 fits "tab"
7 9 unfit "tabs"
7 9 unfit "ta"
8 9 fits true
8 9 unfit false
"#;

#[test]
fn types_without_parts(rt: HostRuntime) -> Result<(), Fail> {
    check_table(rt.alloc(), SCALARS)
}

const RANGES: &str = r#"
= RFC 8610, 2.2.2.1 ranges, and 3.8.6 controls
whole 0 359
number [0.1 [2.0
number [0.0 (360.0
number [0.0352 -
number - (0.3
number [0.0 [1.5707963267948966
number [-1 -
0 9 fits 0
0 9 fits 359
0 9 unfit 360
0 9 unfit -1
0 9 unfit 0.5
1 9 fits 0.1
1 9 fits 2
1 9 fits 1e-1
1 9 unfit 0.09
1 9 unfit 2.0000001
2 9 fits 359.9999
2 9 unfit 360
2 9 unfit 360.0
3 9 fits 0.0352
3 9 unfit 0.0351
4 9 fits 0.29999999
4 9 unfit 0.3
4 9 unfit 0.29999999999999999
5 9 fits 1.5707963267948966
5 9 fits 1.57079632679489661
5 9 unfit 1.5707963267948968
6 9 fits -1
6 9 fits -1.0
6 9 unfit -1.0001
6 9 fits 1e400
"#;

#[test]
fn ranges_compare_doubles(rt: HostRuntime) -> Result<(), Fail> {
    check_table(rt.alloc(), RANGES)
}

const ARRAYS: &str = r#"
= RFC 8610, 3.4 arrays
text
whole 0 9
list 0 0
list 2 1
tuple 1 0
tuple
2 9 fits []
2 9 fits ["a","b"]
2 9 unfit ["a",1]
2 9 unfit {}
3 9 unfit [1]
3 9 fits [1,2,3]
3 9 unfit [1,"a"]
4 9 fits [1,"a"]
4 9 unfit ["a",1]
4 9 unfit [1]
4 9 unfit [1,"a",2]
5 9 fits []
5 9 unfit [1]
"#;

#[test]
fn arrays(rt: HostRuntime) -> Result<(), Fail> {
    check_table(rt.alloc(), ARRAYS)
}

const MAPS: &str = r#"
= RFC 8610, 3.5 maps and 3.5.4 cuts
text
whole 0 9
any
map - !name:0 ?age:1
map 2 !name:0 ?age:1
map 0
3 9 fits {"name":"n"}
3 9 fits {"age":3,"name":"n"}
3 9 unfit {"age":3}
3 9 unfit {"name":"n","age":"3"}
3 9 unfit {"name":"n","more":1}
3 9 unfit []
4 9 fits {"name":"n","more":[]}
4 9 unfit {"name":"n","age":"3"}
4 9 fits {"name":5,"name":"n"}
4 9 unfit {"name":"n","name":5}
5 9 fits {}
5 9 fits {"a":"b","c":"d"}
5 9 unfit {"a":"b","c":1}
= a choice of maps, where the first member tells the alternative
exactly a
exactly b
whole 0 9
text
map - !type:0 !x:2
map - !type:1 !x:3
either 4 5
rule Pair 6
7 9 fits {"type":"a","x":1}
7 9 fits {"type":"b","x":"1"}
7 9 unfit {"type":"a","x":"1"}
7 9 unfit {"type":"c","x":1}
"#;

#[test]
fn maps(rt: HostRuntime) -> Result<(), Fail> {
    check_table(rt.alloc(), MAPS)
}

const LOOKS: &str = r#"
= one look is one term asked about one value
text
list 0 0
either 1 0
rule Either 2
0 0 over "a"
0 1 fits "a"
0 1 unfit 5
1 1 unfit 5
1 1 fits []
1 2 over ["a","b"]
1 3 fits ["a","b"]
2 2 over "a"
2 3 fits "a"
2 1 over []
2 2 fits []
3 3 over "a"
3 4 fits "a"
= rules that lead back to themselves: R = { a: R / null, x: 1 } / { a: R / null, x: 2 }
null
whole 1 1
whole 2 2
map - !a:6 !x:1
map - !a:6 !x:2
either 3 4
either 5 0
6 4 over null
6 5 fits null
5 14 over {"a":null,"x":2}
5 15 fits {"a":null,"x":2}
5 36 over {"a":{"a":null,"x":2},"x":2}
5 37 fits {"a":{"a":null,"x":2},"x":2}
5 1000 unfit {"a":{"a":null,"x":2},"x":3}
= no table
either 0 1
text
0 9 no_table 5
= no table
rule A 0
0 9 no_table 5
= no table
list 0 1
0 9 no_table 5
"#;

#[test]
fn looks_are_counted(rt: HostRuntime) -> Result<(), Fail> {
    check_table(rt.alloc(), LOOKS)
}

const REASONS: &str = r#"
= the reasons, and their words
text
whole 0 9
number [0.5 (2.0
null
exactly tab
exactly window
either 4 5
list 1 0
tuple 1 0
map - !name:0 ?age:1 ?kind:6 ?rate:2 ?list:7 ?pair:8 ?p~x/y:3
rule Person 9
either 10 3
list 3 1
number (1 [3
true
6 why "x" -> : wants "tab" or "window", has "x" (no rule)
9 why 5 -> : wants an object, has 5 (no rule)
10 why {} -> /name: wants a string, has nothing (Person)
10 why {"name":"n","age":10} -> /age: wants a whole number from 0 to 9, has 10 (Person)
10 why {"name":"n","age":1.50} -> /age: wants a whole number from 0 to 9, has 1.50 (Person)
10 why {"name":"n","kind":"popup"} -> /kind: wants "tab" or "window", has "popup" (Person)
10 why {"name":"n","rate":2} -> /rate: wants a number from 0.5 below 2.0, has 2 (Person)
10 why {"name":"n","list":[]} -> /list: wants an array with at least one item, has an empty array (Person)
10 why {"name":"n","list":["a",null,5]} -> /list/1: wants a string, has null (Person)
10 why {"name":"n","pair":[1]} -> /pair: wants an array of 2 items, has an array of one item (Person)
10 why {"name":"n","pair":[1,{}]} -> /pair/1: wants a string, has an empty object (Person)
10 why {"name":"n","p~x/y":true} -> /p~0x~1y: wants null, has true (Person)
10 why {"name":"n","more":{"a":1}} -> /more: wants nothing, has an object of one member (Person)
11 why 5 -> : wants an object or null, has 5 (no rule)
12 why [] -> : wants an array with at least 3 items, has an empty array (no rule)
13 why 0.5 -> : wants a number above 1 up to 3, has 0.5 (no rule)
14 why false -> : wants true, has false (no rule)
0 why [1,2] -> : wants a string, has an array of 2 items (no rule)
1 why "a string that is longer than sixty bytes, so it is told by its length" -> : wants a whole number from 0 to 9, has a string of 69 bytes (no rule)
= a member that tells the alternative decides which reason is told
exactly a
exactly b
text
map - !type:0 !x:2
map - !type:1 !y:2
either 3 4
map - !x:2
map - !y:2
either 6 7
5 why {"type":"a"} -> /x: wants a string, has nothing (no rule)
5 why {"type":"b"} -> /y: wants a string, has nothing (no rule)
5 why {"type":"c"} -> /type: wants "a" or "b", has "c" (no rule)
8 why {"x":5} -> /x: wants a string, has 5 (no rule)
8 why {} -> : wants an object, has an empty object (no rule)
"#;

#[test]
fn reasons(rt: HostRuntime) -> Result<(), Fail> {
    check_table(rt.alloc(), REASONS)
}
