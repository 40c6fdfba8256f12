//! Random grammars and values, with the answers of a model of RFC 8610 in Python that shares no code with the engine.
//!
//! Each table begins with the rules that it was made of.
use crate::tables::check_table;
use std::test::Fail;

const TABLES: &str = r#"
= rule0 = [(float .lt 0.3)]
tuple 2
number - -
number - (0.3
rule rule0 0
3 1000000 unfit 360
3 1000000 unfit true
3 1000000 unfit null
3 1000000 unfit [0.3]
3 1000000 unfit 0
3 1000000 unfit true
= rule0 = {("p/q": (1.5 / number) // b: [0.0...360.0, 1.5], method: "window"), * text => int} rule1 = (("window" / (7 / bool) / rule0) / rule0) rule2 = {a: [-5..5, text, "window"], ? method: [*text]}
map 14 !p/q:13
map 14 !b:15 !method:3
either 0 1
exactly window
whole 7 7
bool
either 4 5
either 6 2
either 3 7
either 8 2
map - !a:16 ?method:17
number [1.5 [1.5
number - -
either 11 12
whole -18446744073709551616 18446744073709551615
tuple 18 11
tuple 19 20 3
list 0 20
number [0.0 (360.0
whole -5 5
text
rule rule0 2
rule rule1 9
rule rule2 10
21 1000000 unfit {"method":"window","more":8}
21 1000000 fits {"p/q":1.5}
21 1000000 unfit 0.5
21 1000000 fits {"p/q":-1.5}
21 1000000 fits {"method":"window","b":[0.0,1.5]}
21 1000000 unfit {"a":true,"p/q":0.1}
22 1000000 fits "window"
22 1000000 fits "window"
22 1000000 unfit {"b":[360.0,1.5],"method":"window","more":7}
22 1000000 unfit {"more":7}
22 1000000 fits "window"
22 1000000 unfit 1.5707963267948967
23 1000000 unfit {"method":[],"a":[6,"tab","window"]}
23 1000000 unfit {"a":[-6,"x","window"]}
23 1000000 fits {"a":[-5,"tab","window"]}
23 1000000 unfit {"a":[-5,"","window"],"more":1}
23 1000000 unfit {"b":360,"p/q":0,"x~y":1.5707963267948967}
23 1000000 unfit {"a":[-6,"tab","window"],"method":[]}
= rule0 = int rule1 = [[rule0, [+-5..5]], {"x~y": uint, b: int, ? a: 7, * text => text}, (float .lt 0.3)]
whole -18446744073709551616 18446744073709551615
tuple 2 3 5
tuple 0 6
map 9 !x~y:7 !b:0 ?a:8
number - -
number - (0.3
list 1 10
whole 0 18446744073709551615
whole 7 7
text
whole -5 5
rule rule0 0
rule rule1 1
11 1000000 fits -3
11 1000000 fits -3
11 1000000 fits 7
11 1000000 fits 8
11 1000000 unfit 1.0
11 1000000 fits 1
12 1000000 unfit []
12 1000000 fits [[-3,[-5]],{"a":7,"b":7,"x~y":0,"more":"x"},-2.5]
12 1000000 unfit 360
12 1000000 unfit 0.09
12 1000000 fits [[4,[-2]],{"a":7,"b":-4,"x~y":0},-2.5]
12 1000000 unfit [[8,[]],{"a":7,"x~y":5,"b":0},-1.1]
= rule0 = {type: 0..1.5707963267948966, ? a: null, "p/q": text, * text => any} rule1 = text rule2 = [rule1, 0..9]
map 5 !type:3 ?a:4 !p/q:1
text
tuple 1 6
number [0 [1.5707963267948966
null
any
whole 0 9
rule rule0 0
rule rule1 1
rule rule2 2
7 1000000 fits {"type":0,"p/q":"x","a":null,"more":0.09}
7 1000000 fits {"p/q":"tab","type":0.7853981633974483,"more":9}
7 1000000 fits {"type":0,"p/q":"tab","a":null,"more":{"a":-1.5e-3,"method":1.5707963267948966,"type":true}}
7 1000000 fits {"type":0,"p/q":"tab","a":null,"more":-1.5e-3}
7 1000000 fits {"p/q":"","type":0.7853981633974483,"more":1e400}
7 1000000 unfit [[{"a":0.5},-6],2.0]
8 1000000 unfit 18446744073709551615
8 1000000 fits "x"
8 1000000 unfit {"b":"tab","more":359.9,"type":[9,false]}
8 1000000 fits "x"
8 1000000 unfit [[],{"more":[]}]
8 1000000 fits "x"
9 1000000 unfit 1.5707963267948967
9 1000000 fits ["tab",9]
9 1000000 fits ["tab",0]
9 1000000 fits ["",0]
9 1000000 unfit ["tab",-1]
9 1000000 unfit -5
= rule0 = number rule1 = "window" rule2 = "window"
number - -
exactly window
rule rule0 0
rule rule1 1
rule rule2 1
2 1000000 fits -1.5
2 1000000 fits 9
2 1000000 fits -1.5
2 1000000 fits -2.5
2 1000000 unfit [0,{}]
2 1000000 fits -2.0
3 1000000 fits "window"
3 1000000 fits "window"
3 1000000 fits "window"
3 1000000 unfit []
3 1000000 fits "window"
3 1000000 fits "window"
4 1000000 fits "window"
4 1000000 fits "window"
4 1000000 fits "window"
4 1000000 fits "window"
4 1000000 fits "window"
4 1000000 fits "window"
= rule0 = (([2*number] / [2*text] / (0.1..2.0 / uint / text)) / "tab" / [{? b: (float .ge 0.5), method: null, * text => int}, (uint / 0.1..2.0)]) rule1 = "window" rule2 = 0..9
list 2 15
list 2 4
number [0.1 [2.0
whole 0 18446744073709551615
text
either 3 4
either 2 5
either 1 6
either 0 7
exactly tab
tuple 16 17
either 9 10
either 8 11
exactly window
whole 0 9
number - -
map 20 ?b:18 !method:19
either 3 2
number [0.5 -
null
whole -18446744073709551616 18446744073709551615
rule rule0 12
rule rule1 13
rule rule2 14
21 1000000 fits 0.1
21 1000000 fits [{"method":null,"more":-4},1.05]
21 1000000 unfit ["x"]
21 1000000 unfit {"type":{"a":[1.570796326794897]},"method":[[9,1]],"b":{"type":-6,"more":[1.0,-1.5e-3],"method":{"a":true}}}
21 1000000 unfit false
21 1000000 fits [{"method":null},10]
22 1000000 fits "window"
22 1000000 fits "window"
22 1000000 fits "window"
22 1000000 fits "window"
22 1000000 unfit 360
22 1000000 fits "window"
23 1000000 fits -0
23 1000000 unfit {}
23 1000000 unfit -1
23 1000000 unfit 10
23 1000000 unfit -1
23 1000000 fits 0
= rule0 = {? "x~y": true}
map - ?x~y:1
true
rule rule0 0
2 1000000 fits {"x~y":true}
2 1000000 fits {"x~y":true}
2 1000000 fits {"x~y":true}
2 1000000 unfit [[0.1,{"b":10}]]
2 1000000 fits {}
2 1000000 fits {"x~y":true}
= rule0 = [2*("tab" / [true, null, int] / {a: 7})] rule1 = ([+[7, "tab"]] / [0.1..2.0])
list 2 8
list 1 9
tuple 10
either 1 2
exactly tab
tuple 11 12 13
map - !a:14
either 5 6
either 4 7
tuple 14 4
number [0.1 [2.0
true
null
whole -18446744073709551616 18446744073709551615
whole 7 7
rule rule0 0
rule rule1 3
15 1000000 fits [[true,null,-4],"tab",[true,null,7]]
15 1000000 unfit [{"a":8},"tab"]
15 1000000 fits ["tab",[true,null,0],{"a":7}]
15 1000000 unfit [{"a":7}]
15 1000000 unfit -0
15 1000000 unfit [{"a":7}]
16 1000000 unfit {"more":{"a":1.5},"a":{"type":2.0,"p/q":0.3},"x~y":9}
16 1000000 fits [1.05]
16 1000000 unfit [[6,"tab"]]
16 1000000 unfit []
16 1000000 unfit []
16 1000000 unfit []
= rule0 = true rule1 = uint rule2 = rule1
true
whole 0 18446744073709551615
rule rule0 0
rule rule1 1
rule rule2 1
2 1000000 unfit 0.09
2 1000000 fits true
2 1000000 fits true
2 1000000 fits true
2 1000000 unfit 1.570796326794897
2 1000000 fits true
3 1000000 unfit -1
3 1000000 unfit {"method":360,"b":-1.5e-3}
3 1000000 fits 11
3 1000000 unfit []
3 1000000 fits 0
3 1000000 fits 0
4 1000000 fits 11
4 1000000 unfit [[1.5707963267948966,1.5707963267948966,[2.0,1.570796326794897,9]],null,{}]
4 1000000 fits 6
4 1000000 unfit {}
4 1000000 unfit {}
4 1000000 fits 7
= rule0 = {method: (text / "tab"), ? "p/q": {(? method: "tab" // ? type: (float .lt 0.3))}} rule1 = any
map - !method:4 ?p/q:7
any
text
exactly tab
either 2 3
map - ?method:3
map - ?type:9
either 5 6
number - -
number - (0.3
rule rule0 0
rule rule1 1
10 1000000 unfit {"p/q":{"method":"tab"},"method":"tab","more":1}
10 1000000 unfit {"p/q":{"type":-1.1}}
10 1000000 fits {"method":"tab"}
10 1000000 unfit []
10 1000000 unfit []
10 1000000 unfit 1.570796326794897
11 1000000 fits 359.9
11 1000000 fits {}
11 1000000 fits [1.5]
11 1000000 fits {"more":-6,"method":0.3}
11 1000000 fits 0.29999
11 1000000 fits {"a":[{},0.1],"x~y":1e0}
= rule0 = 0.0...360.0 rule1 = ((((float .lt 0.3) / "tab") / rule0 / rule0) / uint)
number [0.0 (360.0
number - -
number - (0.3
exactly tab
either 2 3
either 0 0
either 4 5
whole 0 18446744073709551615
either 6 7
rule rule0 0
rule rule1 8
9 1000000 fits 0.0
9 1000000 unfit ["tab",1]
9 1000000 fits 0.0
9 1000000 unfit 360.0
9 1000000 fits 0.0
9 1000000 fits 0.0
10 1000000 fits -1.1
10 1000000 fits -1.1
10 1000000 fits 6
10 1000000 fits 0.0
10 1000000 fits 0.3
10 1000000 fits 0
= rule0 = any rule1 = true
any
true
rule rule0 0
rule rule1 1
2 1000000 fits {"type":"tab","b":"x"}
2 1000000 fits 1e0
2 1000000 fits null
2 1000000 fits -0
2 1000000 fits {"x~y":0.1}
2 1000000 fits [1e400,359.9,1.0]
3 1000000 fits true
3 1000000 fits true
3 1000000 fits true
3 1000000 fits true
3 1000000 fits true
3 1000000 fits true
= rule0 = (any / 0..1.5707963267948966 / int) rule1 = [rule0, 0.1..2.0] rule2 = rule0
any
number [0 [1.5707963267948966
whole -18446744073709551616 18446744073709551615
either 1 2
either 0 3
tuple 4 6
number [0.1 [2.0
rule rule0 4
rule rule1 5
rule rule2 4
7 1000000 fits null
7 1000000 fits [[],1.5707963267948967]
7 1000000 fits -4
7 1000000 fits 0
7 1000000 fits []
7 1000000 fits {"x~y":0.29999}
8 1000000 fits [8,0.1]
8 1000000 fits [0,0.1]
8 1000000 unfit 0.29999
8 1000000 fits [[0.09,0.3],2.0]
8 1000000 unfit 7
8 1000000 fits [{"x~y":-1.5e-3},2.0]
9 1000000 fits true
9 1000000 fits 10
9 1000000 fits 0.3
9 1000000 fits 1e0
9 1000000 fits 1e400
9 1000000 fits 359.9
= rule0 = rule1 rule1 = 0.1..2.0 rule2 = [uint, rule1, [+{? "x~y": 0.1..2.0, a: 0.1..2.0, * text => text}]]
number [0.1 [2.0
tuple 2 0 3
whole 0 18446744073709551615
list 1 4
map 5 ?x~y:0 !a:0
text
rule rule0 0
rule rule1 0
rule rule2 1
6 1000000 unfit [[],{"b":true}]
6 1000000 fits 2.0
6 1000000 fits 0.1
6 1000000 unfit [[359.9,{},[]],0,[1e0,{}]]
6 1000000 fits 0.1
6 1000000 fits 1
7 1000000 unfit [{"x~y":359.9,"method":[0.1],"more":7},0.1]
7 1000000 unfit {}
7 1000000 unfit 7
7 1000000 fits 2.0
7 1000000 fits 2.0
7 1000000 fits 0.1
8 1000000 fits [2,0.1,[{"x~y":1.05,"a":0.1}]]
8 1000000 unfit [-1,1.05,[{"a":1.05,"x~y":0.1,"more":"tab"}]]
8 1000000 unfit [10,1.05,[]]
8 1000000 fits [11,0.1,[{"a":0.1}]]
8 1000000 unfit [10,2.0,[]]
8 1000000 fits [11,2.0,[{"a":2.0,"x~y":2.0,"more":""}]]
= rule0 = rule1 rule1 = 0..9 rule2 = null
whole 0 9
null
rule rule0 0
rule rule1 0
rule rule2 1
2 1000000 unfit 10
2 1000000 unfit 10
2 1000000 fits 9
2 1000000 fits 1
2 1000000 unfit []
2 1000000 unfit {"p/q":[9,[1.5707963267948966,1.5707963267948966,-1.5e-3]],"method":1,"x~y":true}
3 1000000 unfit -1
3 1000000 fits 8
3 1000000 unfit false
3 1000000 unfit {"b":[{"x~y":"window","type":"tab","b":10}]}
3 1000000 unfit {"method":[],"a":{"a":{"method":1e400,"type":"tab"},"method":[2.0,2],"x~y":{"a":0.5,"x~y":true}}}
3 1000000 fits 0
4 1000000 fits null
4 1000000 fits null
4 1000000 unfit 0.5
4 1000000 unfit 0.5
4 1000000 fits null
4 1000000 fits null
= rule0 = [{? (? "x~y": "window")}] rule1 = [{(? "p/q": int // b: any, a: (float .ge 0.5)), * text => text}]
tuple 4
tuple 7
map - ?x~y:8
map -
either 2 3
map 10 ?p/q:9
map 10 !b:11 !a:13
either 5 6
exactly window
whole -18446744073709551616 18446744073709551615
text
any
number - -
number [0.5 -
rule rule0 0
rule rule1 1
14 1000000 fits [{}]
14 1000000 unfit -1.5e-3
14 1000000 fits [{}]
14 1000000 unfit [{"more":1}]
14 1000000 unfit -5
14 1000000 fits [{}]
15 1000000 fits [{"b":[-5],"a":1.5}]
15 1000000 fits [{"more":""}]
15 1000000 unfit 0.3
15 1000000 unfit [{"b":-1.5e-3}]
15 1000000 fits [{"b":[9,2.0],"a":1.5,"more":"x"}]
15 1000000 fits [{"more":"tab"}]
= rule0 = (float .lt 0.3)
number - -
number - (0.3
rule rule0 1
2 1000000 unfit [1.5707963267948967]
2 1000000 fits -2.5
2 1000000 fits -2.5
2 1000000 fits -1.1
2 1000000 unfit null
2 1000000 unfit 0.3
= rule0 = {(b: true)} rule1 = (uint / [["window", 7, true], {(b: number // ? "x~y": any, ? a: -5..5)}, (float .lt 0.3)]) rule2 = -5..5
map - !b:5
whole 0 18446744073709551615
tuple 6 9 11
either 1 2
whole -5 5
true
tuple 12 13 5
map - !b:10
map - ?x~y:14 ?a:4
either 7 8
number - -
number - (0.3
exactly window
whole 7 7
any
rule rule0 0
rule rule1 3
rule rule2 4
15 1000000 fits {"b":true}
15 1000000 fits {"b":true}
15 1000000 fits {"b":true}
15 1000000 fits {"b":true}
15 1000000 fits {"b":true}
15 1000000 fits {"b":true}
16 1000000 unfit 1.0
16 1000000 fits 2
16 1000000 unfit {}
16 1000000 fits 0
16 1000000 fits 11
16 1000000 fits 0
17 1000000 fits 5
17 1000000 unfit 6
17 1000000 fits 5
17 1000000 fits 5
17 1000000 unfit []
17 1000000 fits -5
= rule0 = (["window"] / {(? a: any)})
tuple 3
map - ?a:4
either 0 1
exactly window
any
rule rule0 2
5 1000000 unfit {"more":1}
5 1000000 fits ["window"]
5 1000000 unfit []
5 1000000 fits ["window"]
5 1000000 unfit 1.0
5 1000000 unfit [1e0,[{"type":360,"more":360},1e0],{"type":[1.5707963267948967],"b":{"type":0.5,"more":359.9},"x~y":{}}]
= rule0 = 0..1.5707963267948966 rule1 = ((float .ge 0.5) / [*true] / [0..9, (float .lt 0.3)])
number [0 [1.5707963267948966
number - -
number [0.5 -
list 0 7
tuple 8 9
either 3 4
either 2 5
true
whole 0 9
number - (0.3
rule rule0 0
rule rule1 6
10 1000000 fits 1.5707963267948966
10 1000000 fits 1.5707963267948966
10 1000000 unfit {"p/q":10}
10 1000000 fits 0
10 1000000 unfit [[0.29999,{"type":360,"p/q":0.1}]]
10 1000000 unfit [2.0]
11 1000000 fits [true]
11 1000000 unfit 0.09
11 1000000 fits 0.5
11 1000000 fits 0.5
11 1000000 fits []
11 1000000 unfit [10,-1.1]
= rule0 = {(? method: any // a: [-5..5])} rule1 = int
map - ?method:4
map - !a:5
either 0 1
whole -18446744073709551616 18446744073709551615
any
tuple 6
whole -5 5
rule rule0 2
rule rule1 3
7 1000000 fits {}
7 1000000 fits {"method":{}}
7 1000000 unfit 0.29999
7 1000000 fits {"method":[2.0,"x",1.5707963267948966]}
7 1000000 fits {"a":[-3]}
7 1000000 unfit {"a":[-6]}
8 1000000 fits 7
8 1000000 fits -4
8 1000000 unfit 0.29999
8 1000000 unfit [[10,0.29999,0.29999],-5]
8 1000000 fits 7
8 1000000 unfit {"a":["window"]}
= rule0 = ([2*[0.1..2.0, 1.5, (float .ge 0.5)]] / 0..1.5707963267948966)
list 2 3
number [0 [1.5707963267948966
either 0 1
tuple 4 5 7
number [0.1 [2.0
number [1.5 [1.5
number - -
number [0.5 -
rule rule0 2
8 1000000 fits 1.5707963267948966
8 1000000 fits 0
8 1000000 fits 0
8 1000000 fits 0
8 1000000 unfit [[1.0,{}]]
8 1000000 unfit [[0.1,1.5,1.5]]
= rule0 = uint
whole 0 18446744073709551615
rule rule0 0
1 1000000 fits 11
1 1000000 fits 11
1 1000000 unfit 2.0
1 1000000 fits 11
1 1000000 unfit [7]
1 1000000 fits 0
= rule0 = [2*(float .ge 0.5)] rule1 = ({(a: 0.1..2.0), * text => text} / rule0)
list 2 4
map 6 !a:5
either 1 0
number - -
number [0.5 -
number [0.1 [2.0
text
rule rule0 0
rule rule1 2
7 1000000 unfit [1.5]
7 1000000 fits [1.5,0.5,1.0]
7 1000000 fits [1.0,0.5]
7 1000000 unfit 1.0
7 1000000 fits [1.5,1.5,1.0]
7 1000000 fits [1.0,1.5]
8 1000000 fits [1.5,1.0,0.5]
8 1000000 unfit [1.0]
8 1000000 unfit 2
8 1000000 fits {"a":0.1}
8 1000000 unfit [0]
8 1000000 fits [1.5,1.0]
= rule0 = (("window" / [+"window"]) / (float .lt 0.3)) rule1 = null
exactly window
list 1 0
either 0 1
number - -
number - (0.3
either 2 4
null
rule rule0 5
rule rule1 6
7 1000000 unfit 0.3
7 1000000 unfit 0.3
7 1000000 unfit 18446744073709551615
7 1000000 fits -1.1
7 1000000 fits -5
7 1000000 unfit {}
8 1000000 unfit {}
8 1000000 fits null
8 1000000 unfit 0.5
8 1000000 fits null
8 1000000 unfit {"more":{"b":360,"type":[0.29999]}}
8 1000000 fits null
= rule0 = true rule1 = int rule2 = 0.0...360.0
true
whole -18446744073709551616 18446744073709551615
number [0.0 (360.0
rule rule0 0
rule rule1 1
rule rule2 2
3 1000000 fits true
3 1000000 fits true
3 1000000 unfit {}
3 1000000 fits true
3 1000000 unfit {"b":0.1,"method":{"b":9}}
3 1000000 unfit 1.570796326794897
4 1000000 fits -4
4 1000000 fits 8
4 1000000 unfit [[],10]
4 1000000 fits 8
4 1000000 fits -3
4 1000000 fits 8
5 1000000 fits 1
5 1000000 fits 180.0
5 1000000 fits 0.0
5 1000000 fits 0.0
5 1000000 fits 0.0
5 1000000 unfit null
= rule0 = 7 rule1 = [{? a: any, ? method: -5..5}] rule2 = {a: number, ? (? b: rule1)}
whole 7 7
tuple 5
map - !a:6 ?b:1
map - !a:6
either 2 3
map - ?a:7 ?method:8
number - -
any
whole -5 5
rule rule0 0
rule rule1 1
rule rule2 4
9 1000000 unfit 1.5707963267948967
9 1000000 unfit 1
9 1000000 unfit [{"x~y":18446744073709551615,"p/q":0.5},[1e0,[]]]
9 1000000 fits 7
9 1000000 fits 7
9 1000000 unfit 6
10 1000000 fits [{}]
10 1000000 unfit [{"method":-6}]
10 1000000 unfit [{"method":-5,"a":{"method":"window","p/q":0.5,"type":0.29999},"more":1}]
10 1000000 unfit [{"method":6,"more":1}]
10 1000000 fits [{"a":[1e400,0.1,2]}]
10 1000000 unfit [{"method":6,"a":1.570796326794897}]
11 1000000 unfit 1.5707963267948966
11 1000000 unfit [1.0,"window"]
11 1000000 unfit -0
11 1000000 unfit 2.0
11 1000000 unfit 2.0
11 1000000 unfit {}
= rule0 = -5..5 rule1 = {type: ["tab", 7], "x~y": (0..9 / 0..1.5707963267948966)} rule2 = (uint / null / [(int / any)])
whole -5 5
map - !type:7 !x~y:10
whole 0 18446744073709551615
null
tuple 13
either 3 4
either 2 5
tuple 14 15
whole 0 9
number [0 [1.5707963267948966
either 8 9
whole -18446744073709551616 18446744073709551615
any
either 11 12
exactly tab
whole 7 7
rule rule0 0
rule rule1 1
rule rule2 6
16 1000000 fits -5
16 1000000 unfit -6
16 1000000 fits -3
16 1000000 fits -5
16 1000000 unfit true
16 1000000 unfit -6
17 1000000 unfit {"type":["tab",7],"x~y":-1}
17 1000000 fits {"type":["tab",7],"x~y":0}
17 1000000 fits {"type":["tab",7],"x~y":7}
17 1000000 unfit {"more":360}
17 1000000 unfit {"type":["tab",6],"x~y":9}
17 1000000 unfit [0.3,1e0]
18 1000000 unfit -1
18 1000000 fits [{}]
18 1000000 fits 10
18 1000000 fits [8]
18 1000000 fits [7]
18 1000000 fits null
= rule0 = {method: true, ? type: [+0..1.5707963267948966]} rule1 = [([number, (float .ge 0.5)] / bool)] rule2 = true
map - !method:2 ?type:3
tuple 6
true
list 1 7
tuple 8 9
bool
either 4 5
number [0 [1.5707963267948966
number - -
number [0.5 -
rule rule0 0
rule rule1 1
rule rule2 2
10 1000000 unfit [1e400,[{"p/q":1e0},1.0]]
10 1000000 unfit [2.0]
10 1000000 unfit 2.0
10 1000000 unfit {"type":[],"method":true}
10 1000000 fits {"type":[0],"method":true}
10 1000000 unfit {}
11 1000000 fits [[-2.5,0.5]]
11 1000000 fits [true]
11 1000000 unfit 1.0
11 1000000 unfit 1.570796326794897
11 1000000 fits [[-2.5,0.5]]
11 1000000 fits [false]
12 1000000 fits true
12 1000000 unfit -0
12 1000000 fits true
12 1000000 fits true
12 1000000 fits true
12 1000000 fits true
= rule0 = "window" rule1 = {? a: rule0, b: null, "p/q": any}
exactly window
map - ?a:0 !b:2 !p/q:3
null
any
rule rule0 0
rule rule1 1
4 1000000 fits "window"
4 1000000 unfit 1.0
4 1000000 unfit null
4 1000000 fits "window"
4 1000000 fits "window"
4 1000000 unfit "x"
5 1000000 fits {"a":"window","p/q":360,"b":null}
5 1000000 fits {"b":null,"a":"window","p/q":true}
5 1000000 fits {"b":null,"a":"window","p/q":{"more":false,"x~y":1.5707963267948966,"a":0.1}}
5 1000000 unfit {"p/q":{"b":9,"x~y":-6},"a":"window","b":null,"more":1}
5 1000000 unfit {}
5 1000000 fits {"p/q":10,"b":null,"a":"window"}
= rule0 = [*0..9]
list 0 1
whole 0 9
rule rule0 0
2 1000000 fits [8]
2 1000000 fits []
2 1000000 unfit [-1]
2 1000000 fits []
2 1000000 fits []
2 1000000 unfit 0.29999
= rule0 = {a: rule0, ? method: [+7], ? "p/q": uint}
map - !a:0 ?method:1 ?p/q:2
list 1 3
whole 0 18446744073709551615
whole 7 7
rule rule0 0
4 1000000 unfit {"p/q":10,"a":{"p/q":4,"method":[7,7],"a":{"a":{"a":{"a":2},"p/q":-1}}}}
4 1000000 unfit []
4 1000000 unfit {"p/q":10,"a":{"method":[],"a":{"a":{"a":{"a":18446744073709551615,"p/q":10,"method":9},"p/q":11,"method":[]},"method":[6]},"p/q":11},"method":[7,6]}
4 1000000 unfit 360
4 1000000 unfit {"p/q":10}
4 1000000 unfit {"p/q":10,"a":{"method":[7],"a":{"a":{"a":{"method":1e400,"a":true},"p/q":11,"method":[6,7]}}}}
= rule0 = 7 rule1 = [*any]
whole 7 7
list 0 2
any
rule rule0 0
rule rule1 1
3 1000000 unfit 6
3 1000000 unfit 8
3 1000000 fits 7
3 1000000 unfit 6
3 1000000 unfit 6
3 1000000 unfit 6
4 1000000 unfit "tab"
4 1000000 unfit {"b":10,"a":18446744073709551615,"p/q":0.1}
4 1000000 fits []
4 1000000 fits [{"method":2,"b":true,"a":360}]
4 1000000 fits [true]
4 1000000 fits [null]
= rule0 = {"p/q": (0..1.5707963267948966 / text / 1.5), ? a: [bool, "window"], ? method: {? "x~y": "tab", method: 0.1..2.0}} rule1 = (true / (rule0 / rule0 / ["tab", null, text]) / {(method: number), * text => any}) rule2 = (0.0...360.0 / -5..5)
map - !p/q:15 ?a:16 ?method:17
true
tuple 18 19 12
either 0 2
either 0 3
map 21 !method:20
either 4 5
either 1 6
number [0.0 (360.0
whole -5 5
either 8 9
number [0 [1.5707963267948966
text
number [1.5 [1.5
either 12 13
either 11 14
tuple 22 23
map - ?x~y:18 !method:24
exactly tab
null
number - -
any
bool
exactly window
number [0.1 [2.0
rule rule0 0
rule rule1 7
rule rule2 10
25 1000000 fits {"a":[false,"window"],"p/q":"x"}
25 1000000 fits {"a":[true,"window"],"p/q":1.5707963267948966}
25 1000000 unfit 1.570796326794897
25 1000000 fits {"a":[false,"window"],"method":{"method":2.0},"p/q":0.7853981633974483}
25 1000000 fits {"p/q":1.5707963267948966,"method":{"method":0.1}}
25 1000000 unfit 7
26 1000000 fits true
26 1000000 fits {"method":-1.5}
26 1000000 fits true
26 1000000 fits {"method":-2.5,"more":[null,1]}
26 1000000 fits {"a":[false,"window"],"p/q":1.5}
26 1000000 fits {"method":-2.0,"more":1}
27 1000000 fits 6
27 1000000 fits 0.0
27 1000000 fits 5
27 1000000 fits 5
27 1000000 unfit 360.0
27 1000000 unfit -6
= rule0 = [{type: 0.0...360.0, "x~y": -5..5, * text => int}, {? "x~y": 0.0...360.0, ? b: true, * text => text}] rule1 = rule0
tuple 1 2
map 5 !type:3 !x~y:4
map 7 ?x~y:3 ?b:6
number [0.0 (360.0
whole -5 5
whole -18446744073709551616 18446744073709551615
true
text
rule rule0 0
rule rule1 0
8 1000000 unfit [{"x~y":-6,"type":0.0},{"more":"x"}]
8 1000000 unfit [{"type":360.0,"x~y":1,"more":-3},{"x~y":180.0,"b":true,"more":"tab"}]
8 1000000 unfit [{"type":0.0,"x~y":-6},{"x~y":0.0,"b":true,"more":""}]
8 1000000 unfit [{"type":0.0},{"b":true}]
8 1000000 unfit "x"
8 1000000 unfit [{"x~y":6,"type":360.0},{"b":true,"more":""}]
9 1000000 unfit [{"type":360.0,"x~y":5,"more":-4},{"b":true,"x~y":180.0,"more":""}]
9 1000000 fits [{"type":0.0,"x~y":-5},{"b":true,"more":"x"}]
9 1000000 unfit [{"type":360.0,"x~y":-5},{"b":true,"more":""}]
9 1000000 fits [{"x~y":1,"type":180.0,"more":7},{"x~y":180.0}]
9 1000000 unfit 359.9
9 1000000 fits [{"x~y":5,"type":180.0},{"b":true,"more":""}]
= rule0 = int
whole -18446744073709551616 18446744073709551615
rule rule0 0
1 1000000 fits 7
1 1000000 fits -3
1 1000000 fits 3
1 1000000 fits 7
1 1000000 fits 7
1 1000000 unfit {"more":0.29999,"type":[{"method":0.29999,"x~y":"tab"},"window"]}
= rule0 = {? type: {? method: (float .lt 0.3), "p/q": 0.1..2.0, ? (? "x~y": true), * text => text}, * text => text} rule1 = ({method: -5..5, ? b: uint, ? (? "x~y": (float .lt 0.3))} / [*1.5])
map 9 ?type:8
map - !method:10 ?b:11 ?x~y:13
map - !method:10 ?b:11
either 1 2
list 0 14
either 3 4
map 9 ?method:13 !p/q:15 ?x~y:16
map 9 ?method:13 !p/q:15
either 6 7
text
whole -5 5
whole 0 18446744073709551615
number - -
number - (0.3
number [1.5 [1.5
number [0.1 [2.0
true
rule rule0 0
rule rule1 5
17 1000000 unfit {"type":{"p/q":0.1,"method":0.3,"x~y":true,"more":"tab"}}
17 1000000 unfit {"x~y":359.9}
17 1000000 fits {"type":{"p/q":0.1,"more":"x"}}
17 1000000 fits {"type":{"p/q":1.05},"more":""}
17 1000000 fits {"type":{"p/q":0.1,"more":"tab"},"more":"tab"}
17 1000000 fits {"more":""}
18 1000000 unfit "tab"
18 1000000 unfit {"b":[-5,0.09],"p/q":[["x",1.5707963267948967]],"method":2.0}
18 1000000 fits {"method":-5}
18 1000000 fits [1.5]
18 1000000 unfit {"method":5,"x~y":0.3}
18 1000000 unfit 1.5707963267948967
= rule0 = int rule1 = {? a: 7, * text => int} rule2 = ({? "p/q": int, ? type: true, * text => int} / rule0 / 0.1..2.0)
whole -18446744073709551616 18446744073709551615
map 0 ?a:6
map 0 ?p/q:0 ?type:7
number [0.1 [2.0
either 0 3
either 2 4
whole 7 7
true
rule rule0 0
rule rule1 1
rule rule2 5
8 1000000 fits -1
8 1000000 unfit {"p/q":0.3}
8 1000000 fits -3
8 1000000 unfit [false,0.1,{"more":1.5707963267948966}]
8 1000000 fits -3
8 1000000 fits -4
9 1000000 unfit 1.5707963267948967
9 1000000 unfit {"a":6}
9 1000000 fits {}
9 1000000 unfit {"x~y":[1,0.3,1]}
9 1000000 fits {"more":8}
9 1000000 fits {"a":7,"more":1}
10 1000000 unfit {"p/q":[0.5,{"type":0.1,"method":1.0}],"method":[],"type":null}
10 1000000 fits 7
10 1000000 fits 0.1
10 1000000 fits 7
10 1000000 fits 0.1
10 1000000 fits {"type":true,"p/q":8,"more":7}
= rule0 = ([+(true / "tab")] / -5..5)
list 1 5
whole -5 5
either 0 1
true
exactly tab
either 3 4
rule rule0 2
6 1000000 unfit 6
6 1000000 fits ["tab"]
6 1000000 fits -5
6 1000000 fits ["tab"]
6 1000000 fits ["tab"]
6 1000000 unfit [{"a":-0,"p/q":{"x~y":7,"b":0.5,"method":360}}]
= rule0 = 7
whole 7 7
rule rule0 0
1 1000000 fits 7
1 1000000 unfit 8
1 1000000 fits 7
1 1000000 fits 7
1 1000000 unfit 8
1 1000000 fits 7
= rule0 = ([2*text] / "tab")
list 2 3
exactly tab
either 0 1
text
rule rule0 2
4 1000000 fits "tab"
4 1000000 unfit 1.5
4 1000000 unfit false
4 1000000 fits "tab"
4 1000000 fits "tab"
4 1000000 fits "tab"
= rule0 = {? method: [2*text], "p/q": (text / true), * text => text} rule1 = rule0 rule2 = rule0
map 2 ?method:1 !p/q:4
list 2 2
text
true
either 2 3
rule rule0 0
rule rule1 0
rule rule2 0
5 1000000 unfit {"method":["tab"],"p/q":true}
5 1000000 unfit 18446744073709551615
5 1000000 fits {"p/q":true,"more":"tab"}
5 1000000 unfit []
5 1000000 fits {"method":["tab","x"],"p/q":"","more":""}
5 1000000 unfit {"method":[""],"p/q":""}
6 1000000 fits {"method":["tab","",""],"p/q":true}
6 1000000 fits {"p/q":true}
6 1000000 fits {"p/q":true,"method":["x","x","tab"],"more":"tab"}
6 1000000 unfit {"method":["x"],"p/q":"","more":"x"}
6 1000000 unfit {"method":[""],"p/q":"tab","more":"tab"}
6 1000000 unfit 1.5707963267948967
7 1000000 fits {"p/q":""}
7 1000000 unfit -1.5e-3
7 1000000 unfit "tab"
7 1000000 fits {"p/q":true,"method":["tab","tab"],"more":""}
7 1000000 unfit {"more":"x"}
7 1000000 unfit 1
= rule0 = {? b: 0..1.5707963267948966, type: (text / 7), ? a: 0..1.5707963267948966, * text => any} rule1 = 0.0...360.0
map 6 ?b:2 !type:5 ?a:2
number [0.0 (360.0
number [0 [1.5707963267948966
text
whole 7 7
either 3 4
any
rule rule0 0
rule rule1 1
7 1000000 unfit {"b":0,"a":1.5707963267948966,"more":1.5707963267948966}
7 1000000 fits {"type":7,"b":0,"more":0.3}
7 1000000 unfit -6
7 1000000 fits {"b":0,"type":"x","more":{"x~y":0.5,"method":1e400,"more":7}}
7 1000000 fits {"b":0.7853981633974483,"type":"x","more":1}
7 1000000 unfit {"type":6,"b":1.5707963267948966,"a":0,"more":{"x~y":7,"b":1.570796326794897}}
8 1000000 fits 180.0
8 1000000 fits 180.0
8 1000000 fits 0.0
8 1000000 fits 180.0
8 1000000 unfit 360.0
8 1000000 unfit "window"
= rule0 = ({? (a: true), * text => any} / {type: uint, ? "p/q": null, ? (? "x~y": 0..9), * text => int} / 0.0...360.0) rule1 = (uint / rule0) rule2 = ["window", ["window", text], [*{(? a: 0..1.5707963267948966 // ? b: true)}]]
map 13 !a:12
map 13
either 0 1
map 16 !type:9 ?p/q:14 ?x~y:15
map 16 !type:9 ?p/q:14
either 3 4
number [0.0 (360.0
either 5 6
either 2 7
whole 0 18446744073709551615
either 9 8
tuple 17 18 19
true
any
null
whole 0 9
whole -18446744073709551616 18446744073709551615
exactly window
tuple 17 20
list 0 23
text
map - ?a:24
map - ?b:12
either 21 22
number [0 [1.5707963267948966
rule rule0 8
rule rule1 10
rule rule2 11
25 1000000 fits {"a":true,"more":[null,-5]}
25 1000000 fits {"more":1}
25 1000000 fits {"p/q":null,"type":0}
25 1000000 fits {"more":{}}
25 1000000 unfit [-6,-5]
25 1000000 fits {"a":true}
26 1000000 fits 10
26 1000000 fits {}
26 1000000 fits 6
26 1000000 fits 18446744073709551615
26 1000000 unfit [[-6,{"b":0,"x~y":1.5707963267948966}],{"a":{"b":360},"more":2.0},[{"a":1e0},[-0,0.29999]]]
26 1000000 fits 360
27 1000000 unfit -0
27 1000000 unfit []
27 1000000 fits ["window",["window","x"],[]]
27 1000000 fits ["window",["window",""],[{"b":true}]]
27 1000000 fits ["window",["window",""],[{"b":true}]]
27 1000000 unfit {"a":0.1,"more":1e400}
= rule0 = 0.0...360.0 rule1 = ({b: int, ? "x~y": null} / (number / [+uint]) / rule0)
number [0.0 (360.0
map - !b:7 ?x~y:8
number - -
list 1 9
either 2 3
either 4 0
either 1 5
whole -18446744073709551616 18446744073709551615
null
whole 0 18446744073709551615
rule rule0 0
rule rule1 6
10 1000000 unfit 360.0
10 1000000 fits 0.0
10 1000000 unfit 360.0
10 1000000 fits 180.0
10 1000000 fits 180.0
10 1000000 fits 0
11 1000000 fits 360.0
11 1000000 fits 0.0
11 1000000 unfit [true,"tab"]
11 1000000 fits {"b":8}
11 1000000 unfit "window"
11 1000000 fits {"b":8,"x~y":null}
= rule0 = true rule1 = {method: [any], ? "x~y": ["window"], * text => text} rule2 = rule1
true
map 4 !method:2 ?x~y:3
tuple 5
tuple 6
text
any
exactly window
rule rule0 0
rule rule1 1
rule rule2 1
7 1000000 fits true
7 1000000 unfit [{"type":1e400,"p/q":[-1.5e-3,1],"more":1e400}]
7 1000000 unfit 1.0
7 1000000 fits true
7 1000000 fits true
7 1000000 fits true
8 1000000 fits {"x~y":["window"],"method":[{"type":1e400,"more":1.5,"b":359.9}],"more":"tab"}
8 1000000 fits {"method":[360],"x~y":["window"],"more":""}
8 1000000 fits {"method":[{"method":"tab"}],"x~y":["window"],"more":""}
8 1000000 fits {"method":[-6],"x~y":["window"],"more":"tab"}
8 1000000 fits {"method":[1.570796326794897]}
8 1000000 fits {"method":[{"p/q":1.5}],"x~y":["window"],"more":"tab"}
9 1000000 fits {"method":["tab"],"x~y":["window"]}
9 1000000 unfit {"p/q":-6,"b":9,"more":{"b":{"x~y":18446744073709551615},"p/q":{"method":"window","more":1.0,"type":"tab"}}}
9 1000000 fits {"method":[-1.5e-3],"more":"x"}
9 1000000 fits {"method":[{"type":0.1,"method":-0,"x~y":1}],"more":"x"}
9 1000000 unfit {}
9 1000000 fits {"x~y":["window"],"method":[7]}
= rule0 = [2*[+[*(float .ge 0.5)]]] rule1 = [rule0, rule0] rule2 = "tab"
list 2 3
tuple 0 0
exactly tab
list 1 4
list 0 6
number - -
number [0.5 -
rule rule0 0
rule rule1 1
rule rule2 2
7 1000000 fits [[[],[]],[[]]]
7 1000000 unfit 2
7 1000000 fits [[[1.0],[]],[[],[]]]
7 1000000 unfit [[[],[]]]
7 1000000 unfit [[[],[1.5]]]
7 1000000 unfit [[[]]]
8 1000000 unfit [[[],[[]]],[[[]]]]
8 1000000 unfit true
8 1000000 unfit 18446744073709551615
8 1000000 unfit 1.5707963267948967
8 1000000 unfit [[[[]],[[1.0],[]],[]],[[[]],[[1.5]],[[]]]]
8 1000000 unfit [[[[0.5],[]]],[[]]]
9 1000000 unfit {"method":1.570796326794897,"more":true}
9 1000000 unfit {"more":0.29999,"b":10}
9 1000000 fits "tab"
9 1000000 fits "tab"
9 1000000 fits "tab"
9 1000000 unfit {"p/q":1e400}
= rule0 = bool rule1 = rule2 rule2 = {(? type: int), * text => any}
bool
map 3 ?type:2
whole -18446744073709551616 18446744073709551615
any
rule rule0 0
rule rule1 1
rule rule2 1
4 1000000 fits false
4 1000000 unfit 359.9
4 1000000 fits false
4 1000000 fits true
4 1000000 fits true
4 1000000 fits true
5 1000000 unfit {"type":null}
5 1000000 unfit -6
5 1000000 fits {"type":-3}
5 1000000 fits {"more":7}
5 1000000 fits {}
5 1000000 fits {"type":-3,"more":0.09}
6 1000000 fits {}
6 1000000 fits {"type":-4,"more":-0}
6 1000000 fits {"more":[null,10]}
6 1000000 fits {"type":-3,"more":0.09}
6 1000000 fits {}
6 1000000 fits {"type":-3}
= rule0 = ((null / "window") / (-5..5 / {"p/q": 0.0...360.0, type: any}))
null
exactly window
either 0 1
whole -5 5
map - !p/q:7 !type:8
either 3 4
either 2 5
number [0.0 (360.0
any
rule rule0 6
9 1000000 fits "window"
9 1000000 fits {"type":359.9,"p/q":180.0}
9 1000000 unfit [{"x~y":359.9},0]
9 1000000 fits "window"
9 1000000 unfit -6
9 1000000 fits -1
= rule0 = 0..9 rule1 = null rule2 = any
whole 0 9
null
any
rule rule0 0
rule rule1 1
rule rule2 2
3 1000000 fits 0
3 1000000 fits 1
3 1000000 unfit 10
3 1000000 fits 0
3 1000000 unfit [{"method":2}]
3 1000000 unfit 10
4 1000000 unfit {"a":[1.5,-0],"method":[{"a":0.3,"x~y":0.3,"more":1.5},1.5707963267948966]}
4 1000000 fits null
4 1000000 fits null
4 1000000 unfit []
4 1000000 fits null
4 1000000 fits null
5 1000000 fits 0
5 1000000 fits {"a":{"type":[360],"p/q":18446744073709551615},"x~y":0.5,"type":1.5707963267948966}
5 1000000 fits 18446744073709551615
5 1000000 fits null
5 1000000 fits 1.5707963267948967
5 1000000 fits {"more":null,"type":1e0,"method":{}}
= rule0 = 0..1.5707963267948966
number [0 [1.5707963267948966
rule rule0 0
1 1000000 fits 1.5707963267948966
1 1000000 fits 0.7853981633974483
1 1000000 fits 0.7853981633974483
1 1000000 fits 0.7853981633974483
1 1000000 fits 0.7853981633974483
1 1000000 unfit [1.5,"tab",0.1]
= rule0 = [(true / ("window" / (float .lt 0.3) / true)), (null / (0..1.5707963267948966 / 1.5) / true)] rule1 = {? (b: rule0)} rule2 = (float .lt 0.3)
tuple 10 16
map - !b:0
map -
either 1 2
number - -
number - (0.3
true
exactly window
either 5 6
either 7 8
either 6 9
null
number [0 [1.5707963267948966
number [1.5 [1.5
either 12 13
either 14 6
either 11 15
rule rule0 0
rule rule1 3
rule rule2 5
17 1000000 fits ["window",0.7853981633974483]
17 1000000 fits ["window",null]
17 1000000 unfit [{"a":["window",1.570796326794897,-6],"b":{"a":null,"method":0,"type":1.0},"type":[359.9,"x"]}]
17 1000000 unfit 1.570796326794897
17 1000000 fits ["window",null]
17 1000000 fits ["window",null]
18 1000000 fits {"b":["window",null]}
18 1000000 fits {}
18 1000000 unfit 359.9
18 1000000 fits {}
18 1000000 fits {"b":[-2.5,null]}
18 1000000 unfit -5
19 1000000 fits -1.1
19 1000000 fits -2.5
19 1000000 fits -1.1
19 1000000 fits -1.1
19 1000000 unfit 0.3
19 1000000 fits -2.5
= rule0 = (text / "tab")
text
exactly tab
either 0 1
rule rule0 2
3 1000000 fits "tab"
3 1000000 fits "tab"
3 1000000 unfit [[],null]
3 1000000 fits "tab"
3 1000000 fits "tab"
3 1000000 fits ""
= rule0 = {? method: "window", ? (? a: number)} rule1 = {(? b: [*(float .lt 0.3)] // ? method: [7, bool])} rule2 = ({"x~y": int, method: 7, ? a: null} / (uint / {"p/q": number, "x~y": 0.0...360.0, b: "tab", * text => text}))
map - ?method:11 ?a:12
map - ?method:11
either 0 1
map - ?b:13
map - ?method:14
either 3 4
map - !x~y:15 !method:16 ?a:17
whole 0 18446744073709551615
map 20 !p/q:12 !x~y:18 !b:19
either 7 8
either 6 9
exactly window
number - -
list 0 21
tuple 16 22
whole -18446744073709551616 18446744073709551615
whole 7 7
null
number [0.0 (360.0
exactly tab
text
number - (0.3
bool
rule rule0 2
rule rule1 5
rule rule2 10
23 1000000 fits {"method":"window","a":-2.5}
23 1000000 fits {}
23 1000000 fits {"method":"window"}
23 1000000 fits {}
23 1000000 fits {}
23 1000000 fits {}
24 1000000 unfit {"a":7,"method":-6}
24 1000000 unfit "x"
24 1000000 fits {}
24 1000000 unfit -0
24 1000000 unfit {"b":[-1.1],"more":1}
24 1000000 fits {}
25 1000000 unfit -1.5e-3
25 1000000 unfit {"x~y":7,"method":8,"a":null}
25 1000000 unfit {"a":null,"method":6,"x~y":-3}
25 1000000 unfit {"more":{"more":["tab",360,0.29999],"method":[]}}
25 1000000 fits {"x~y":-1,"method":7}
25 1000000 fits {"x~y":7,"a":null,"method":7}
= rule0 = {"p/q": (0.1..2.0 / 0..1.5707963267948966), ? method: [(float .lt 0.3), -5..5, true], b: {b: number, "p/q": text}} rule1 = number rule2 = "window"
map - !p/q:5 ?method:6 !b:7
number - -
exactly window
number [0.1 [2.0
number [0 [1.5707963267948966
either 3 4
tuple 8 9 10
map - !b:1 !p/q:11
number - (0.3
whole -5 5
true
text
rule rule0 0
rule rule1 1
rule rule2 2
12 1000000 unfit {"a":0.1,"p/q":2.0}
12 1000000 unfit 0.3
12 1000000 unfit {"p/q":0.7853981633974483,"b":{"p/q":"tab","b":-2.5,"more":1}}
12 1000000 fits {"p/q":1.5707963267948966,"b":{"p/q":"tab","b":-2.5}}
12 1000000 unfit {"p/q":0}
12 1000000 unfit {"p/q":1.05,"method":[-1.1,-6,true],"b":{"b":-2.5,"p/q":""}}
13 1000000 fits -1.5
13 1000000 fits -2.0
13 1000000 fits -1.5
13 1000000 fits -2.0
13 1000000 fits -1.5
13 1000000 unfit [1.5]
14 1000000 unfit false
14 1000000 fits "window"
14 1000000 unfit [{"a":["window",1.0,9]}]
14 1000000 fits "window"
14 1000000 unfit [[[10,-5]],"window"]
14 1000000 fits "window"
= rule0 = uint rule1 = rule0
whole 0 18446744073709551615
rule rule0 0
rule rule1 0
1 1000000 fits 0
1 1000000 fits 11
1 1000000 fits 11
1 1000000 unfit -1
1 1000000 fits 10
1 1000000 unfit [{"a":359.9,"type":359.9,"x~y":"tab"},1.5707963267948967]
2 1000000 fits 10
2 1000000 unfit -1
2 1000000 unfit null
2 1000000 unfit 0.5
2 1000000 unfit {"b":{},"p/q":["x",1e0],"a":-6}
2 1000000 unfit 1.5707963267948966
= rule0 = [rule0] rule1 = [*[[2*bool], {(? "p/q": 0..1.5707963267948966 // type: null, ? method: bool), * text => any}]]
tuple 0
list 0 2
tuple 3 6
list 2 7
map 9 ?p/q:8
map 9 !type:10 ?method:7
either 4 5
bool
number [0 [1.5707963267948966
any
null
rule rule0 0
rule rule1 1
11 1000000 unfit [[[[[359.9]]]]]
11 1000000 unfit [[[[[1.0]]]]]
11 1000000 unfit [[[[[7]]]]]
11 1000000 unfit [[[[[-0]]]]]
11 1000000 unfit [[[[[true]]]]]
11 1000000 unfit {"more":[1e400,2],"a":1.5,"b":[{"x~y":"tab"},7,{"b":true}]}
12 1000000 fits []
12 1000000 fits []
12 1000000 fits [[[true,false],{"type":null,"more":"x"}]]
12 1000000 fits []
12 1000000 fits []
12 1000000 fits [[[true,true],{"method":false,"type":null}]]
= rule0 = {type: {? "x~y": 0..1.5707963267948966, * text => int}} rule1 = "tab" rule2 = "window"
map - !type:3
exactly tab
exactly window
map 5 ?x~y:4
number [0 [1.5707963267948966
whole -18446744073709551616 18446744073709551615
rule rule0 0
rule rule1 1
rule rule2 2
6 1000000 fits {"type":{"more":7}}
6 1000000 unfit [360,"window"]
6 1000000 fits {"type":{"x~y":1.5707963267948966}}
6 1000000 fits {"type":{"more":-3}}
6 1000000 fits {"type":{"x~y":0.7853981633974483,"more":8}}
6 1000000 fits {"type":{"x~y":0,"more":-3}}
7 1000000 fits "tab"
7 1000000 fits "tab"
7 1000000 fits "tab"
7 1000000 unfit -6
7 1000000 unfit [[1.570796326794897,9]]
7 1000000 fits "tab"
8 1000000 fits "window"
8 1000000 fits "window"
8 1000000 fits "window"
8 1000000 fits "window"
8 1000000 fits "window"
8 1000000 fits "window"
= rule0 = 7
whole 7 7
rule rule0 0
1 1000000 fits 7
1 1000000 unfit 8
1 1000000 unfit 6
1 1000000 unfit 6
1 1000000 fits 7
1 1000000 fits 7
= rule0 = number rule1 = 0.1..2.0
number - -
number [0.1 [2.0
rule rule0 0
rule rule1 1
2 1000000 fits -2.0
2 1000000 unfit {"b":0.1,"method":false,"p/q":1.5707963267948966}
2 1000000 fits -2.0
2 1000000 fits -2.5
2 1000000 fits -1.5
2 1000000 unfit {}
3 1000000 fits 2.0
3 1000000 unfit 9
3 1000000 fits 1.05
3 1000000 fits 2.0
3 1000000 fits 1.05
3 1000000 fits 0.1
"#;

#[test]
fn random_grammars(rt: HostRuntime) -> Result<(), Fail> {
    check_table(rt.alloc(), TABLES)
}
