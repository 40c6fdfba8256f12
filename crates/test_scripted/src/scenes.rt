//! Scenes: what lines of a test and of its clients bring about, one after another.
use bidi_play::read_step_text;
use bidi_remote::Sent;
use bidi_scripted::{ScriptFault, ScriptedEnd, Taken};
use std::alloc::{AllocError, Global};
use std::test::Fail;

/// Each scene begins with `# NAME` and a new scripted end. A line and what comes of it stand on two sides of ` -> `: lines as a play has
/// them, `held N` for a command that is held, and `ok` where nothing is sent.
const SCENES: &str = r#"# a status goes to the machine as long as no row is for it
open 1 /session -> opened 1
> 1 STATUS -> < 1 READY
answer {"method":"session.new","result":{}} -> ok
> 1 STATUS -> < 1 READY
> 1 {"id":1} -> < 1 {"error":"invalid argument","id":1,"message":"invalid argument","type":"error"}
> 1 nonsense -> < 1 {"error":"invalid argument","id":null,"message":"invalid argument","type":"error"}
# a row answers, and its result is compact, with its numbers as they are written
open 1 /session -> opened 1
answer { "method": "session.status", "result": { "b": 1.50, "a": [1e2, "é\n"] } } -> ok
> 1 STATUS -> < 1 {"id":1,"result":{"b":1.50,"a":[1e2,"é\n"]},"type":"success"}
> 1 {"id":9007199254740991,"method":"session.status"} -> < 1 {"id":9007199254740991,"result":{"b":1.50,"a":[1e2,"é\n"]},"type":"success"}
> 2 STATUS -> lost 2
unanswer session.status -> ok
unanswer session.status -> no effect: no row is for this method
> 1 STATUS -> < 1 READY
# a message of more than 1,048,576 bytes is no JSON, so no row is asked of it
open 1 /session -> opened 1
answer {"method":"m","result":{}} -> ok
hold {"method":"h"} -> ok
> 1 {"id":1,"method":"m"}FULL -> < 1 {"id":1,"result":{},"type":"success"}
> 1 {"id":1,"method":"m"} FULL -> < 1 NOJSON
> 1 {"id":1,"method":"h"} FULL -> < 1 NOJSON
names x -> ok
> 1 {"id":1,"method":"m"} FULL -> < 1 NOJSON
# what is no command goes to the machine
open 1 /session -> opened 1
answer {"method":"session.status","result":{}} -> ok
> 1 {"id":9007199254740992,"method":"session.status","params":{}} -> < 1 {"error":"invalid argument","id":null,"message":"invalid argument","type":"error"}
> 1 {"id":-1,"method":"session.status","params":{}} -> < 1 {"error":"invalid argument","id":null,"message":"invalid argument","type":"error"}
> 1 {"id":1.0,"method":"session.status","params":{}} -> < 1 {"error":"invalid argument","id":null,"message":"invalid argument","type":"error"}
> 1 {"id":"1","method":"session.status","params":{}} -> < 1 {"error":"invalid argument","id":null,"message":"invalid argument","type":"error"}
> 1 ["session.status"] -> < 1 {"error":"invalid argument","id":null,"message":"invalid argument","type":"error"}
> 1 {"id":1,"method":"session.statu","params":{}} -> < 1 {"error":"unknown command","id":1,"message":"unknown command","type":"error"}
> 1 {"id":5,"id":6,"method":"x","method":"session.status"} -> < 1 {"id":6,"result":{},"type":"success"}
# errors, with a message or without one
open 1 /session -> opened 1
answer {"method":"a.b","error":"unable to capture screen"} -> ok
> 1 {"id":4,"method":"a.b","params":{}} -> < 1 {"error":"unable to capture screen","id":4,"message":"unable to capture screen","type":"error"}
answer {"method":"a.b","error":"my \"own\"","message":"it is\tso"} -> ok
> 1 {"id":4,"method":"a.b","params":{}} -> < 1 {"error":"my \"own\"","id":4,"message":"it is\tso","type":"error"}
# the newest row that matches decides, and times go down
open 1 /session -> opened 1
answer {"method":"m","result":{"row":1}} -> ok
answer {"method":"m","params":{"a":1},"result":{"row":2},"times":2} -> ok
answer {"method":"m","params":{"a":1,"b":{"$starts":"x"}},"result":{"row":3},"times":1} -> ok
> 1 {"id":1,"method":"m","params":{"a":1,"b":"xy"}} -> < 1 {"id":1,"result":{"row":3},"type":"success"}
> 1 {"id":2,"method":"m","params":{"a":1,"b":"xy"}} -> < 1 {"id":2,"result":{"row":2},"type":"success"}
> 1 {"id":3,"method":"m","params":{"a":2,"b":"xy"}} -> < 1 {"id":3,"result":{"row":1},"type":"success"}
> 1 {"id":4,"method":"m","params":{"b":"xy","a":1}} -> < 1 {"id":4,"result":{"row":2},"type":"success"}
> 1 {"id":5,"method":"m","params":{"a":1}} -> < 1 {"id":5,"result":{"row":1},"type":"success"}
> 1 {"id":6,"method":"m"} -> < 1 {"id":6,"result":{"row":1},"type":"success"}
# parts: objects by their properties, arrays by their first items, strings by equality or a test, anything else by equality
open 1 /session -> opened 1
answer {"method":"m","params":{"l":[{},{"v":20}]},"result":{"row":1}} -> ok
answer {"method":"m","params":{"s":{"$contains":"needle"}},"result":{"row":2}} -> ok
answer {"method":"m","params":{"s":{"$starts":"a","$contains":"z"}},"result":{"row":3}} -> ok
answer {"method":"m","params":{"n":null,"t":true,"f":1.5},"result":{"row":4}} -> ok
answer {"method":"m","params":{"s":{}},"result":{"row":5}} -> ok
> 1 {"id":1,"method":"m","params":{"l":[{"x":1},{"v":20,"w":0},3]}} -> < 1 {"id":1,"result":{"row":1},"type":"success"}
> 1 {"id":1,"method":"m","params":{"l":[{"x":1}]}} -> < 1 UNKNOWN
> 1 {"id":1,"method":"m","params":{"l":["x",{"v":20}]}} -> < 1 UNKNOWN
> 1 {"id":1,"method":"m","params":{"s":"a needle in hay"}} -> < 1 {"id":1,"result":{"row":2},"type":"success"}
> 1 {"id":1,"method":"m","params":{"s":"a needl"}} -> < 1 UNKNOWN
> 1 {"id":1,"method":"m","params":{"s":"a to z"}} -> < 1 {"id":1,"result":{"row":3},"type":"success"}
> 1 {"id":1,"method":"m","params":{"s":"b to z"}} -> < 1 UNKNOWN
> 1 {"id":1,"method":"m","params":{"n":null,"t":true,"f":1.5}} -> < 1 {"id":1,"result":{"row":4},"type":"success"}
> 1 {"id":1,"method":"m","params":{"n":null,"t":true,"f":1.50}} -> < 1 UNKNOWN
> 1 {"id":1,"method":"m","params":{"n":null,"t":false,"f":1.5}} -> < 1 UNKNOWN
> 1 {"id":1,"method":"m","params":{"n":0,"t":true,"f":1.5}} -> < 1 UNKNOWN
> 1 {"id":1,"method":"m","params":{"s":{"a":1}}} -> < 1 {"id":1,"result":{"row":5},"type":"success"}
> 1 {"id":1,"method":"m","params":{"s":"x"}} -> < 1 UNKNOWN
# an object with many properties has each of them under its name, and the last of two with one name counts
open 1 /session -> opened 1
answer {"method":"m","params":{MANY,"z":{"$starts":"x"}},"result":{"row":1}} -> ok
answer {"method":"m","params":{"l":[{MANY,"q":0,"z":[1]}]},"result":{"row":2}} -> ok
> 1 {"id":1,"method":"m","params":{"z":"xy",MANY}} -> < 1 {"id":1,"result":{"row":1},"type":"success"}
> 1 {"id":1,"method":"m","params":{MANY,"y":0,"z":"xy","zz":0}} -> < 1 {"id":1,"result":{"row":1},"type":"success"}
> 1 {"id":1,"method":"m","params":{"z":"y",MANY,"z":"xy"}} -> < 1 {"id":1,"result":{"row":1},"type":"success"}
> 1 {"id":1,"method":"m","params":{"z":"xy",MANY,"z":"y"}} -> < 1 UNKNOWN
> 1 {"id":1,"method":"m","params":{MANY,"y":"xy"}} -> < 1 UNKNOWN
> 1 {"id":1,"method":"m","params":{MANY,"z":"xy","p":0}} -> < 1 UNKNOWN
> 1 {"id":1,"method":"m","params":{"z":"xy"}} -> < 1 UNKNOWN
> 1 {"id":1,"method":"m","params":{"l":[{"z":[1,2],"q":0,MANY}]}} -> < 1 {"id":1,"result":{"row":2},"type":"success"}
> 1 {"id":1,"method":"m","params":{"l":[{"z":[2,1],"q":0,MANY}]}} -> < 1 UNKNOWN
# rows that answer session.new and session.end leave the machine alone
open 1 /session -> opened 1
answer {"method":"session.new","result":{"sessionId":"s","capabilities":{}},"times":1} -> ok
> 1 NEW -> < 1 {"id":0,"result":{"sessionId":"s","capabilities":{}},"type":"success"}
> 1 {"id":1,"method":"session.end","params":{}} -> < 1 {"error":"invalid session id","id":1,"message":"invalid session id","type":"error"}
> 1 NEW -> < 1 MADE
answer {"method":"session.end","result":{}} -> ok
> 1 {"id":1,"method":"session.end","params":{}} -> < 1 {"id":1,"result":{},"type":"success"}
> 1 STATUS -> < 1 READY
# events before and after an answer, to the sessions that subscribed
open 1 /session -> opened 1
> 1 NEW -> < 1 MADE
> 1 {"id":2,"method":"session.subscribe","params":{"events":["browsingContext.load"]}} -> < 1 {"id":2,"result":{"subscription":"00000001-0005-8000-8000-000000000001"},"type":"success"}
open 2 /session/00000000-0001-8000-8000-000000000001 -> opened 2
open 3 /session -> opened 3
answer {"method":"m","result":{},"before":[{"method":"browsingContext.load","params":{"n":1}},{"method":"log.entryAdded","params":{}}],"after":[{"method":"browsingContext.load","params":{ "n": 2 }}]} -> ok
> 2 {"id":7,"method":"m"} -> < 1 {"method":"browsingContext.load","params":{"n":1},"type":"event"}, < 2 {"method":"browsingContext.load","params":{"n":1},"type":"event"}, < 2 {"id":7,"result":{},"type":"success"}, < 1 {"method":"browsingContext.load","params":{"n":2},"type":"event"}, < 2 {"method":"browsingContext.load","params":{"n":2},"type":"event"}
> 3 {"id":8,"method":"m"} -> < 1 {"method":"browsingContext.load","params":{"n":1},"type":"event"}, < 2 {"method":"browsingContext.load","params":{"n":1},"type":"event"}, < 3 {"id":8,"result":{},"type":"success"}, < 1 {"method":"browsingContext.load","params":{"n":2},"type":"event"}, < 2 {"method":"browsingContext.load","params":{"n":2},"type":"event"}
# events of a test go to the sessions that subscribed, in their scope
open 1 /session -> opened 1
> 1 NEW -> < 1 MADE
open 2 /session -> opened 2
> 2 NEW -> < 2 MADE2
emit {"method":"log.entryAdded","params":{}} -> ok
> 1 {"id":2,"method":"session.subscribe","params":{"events":["log.entryAdded"],"contexts":["C1"]}} -> < 1 {"id":2,"result":{"subscription":"00000001-0005-8000-8000-000000000001"},"type":"success"}
> 2 {"id":3,"method":"session.subscribe","params":{"events":["log"]}} -> < 2 {"id":3,"result":{"subscription":"00000002-0005-8000-8000-000000000001"},"type":"success"}
emit {"method":"log.entryAdded","params":{}} -> < 2 {"method":"log.entryAdded","params":{},"type":"event"}
emit {"method":"log.entryAdded","params":{"source":{"context":"C1"}}} -> < 1 {"method":"log.entryAdded","params":{"source":{"context":"C1"}},"type":"event"}, < 2 {"method":"log.entryAdded","params":{"source":{"context":"C1"}},"type":"event"}
emit {"method":"log.entryAdded","params":{"context":"C1"}} -> < 1 {"method":"log.entryAdded","params":{"context":"C1"},"type":"event"}, < 2 {"method":"log.entryAdded","params":{"context":"C1"},"type":"event"}
emit {"method":"log.entryAdded","params":{"context":"C2","source":{"context":"C1"}}} -> < 2 {"method":"log.entryAdded","params":{"context":"C2","source":{"context":"C1"}},"type":"event"}
emit {"method":"browsingContext.load","params":{}} -> ok
# a held command waits for its release
open 1 /session -> opened 1
hold {"method":"session.status"} -> ok
> 1 STATUS -> held 1
> 1 {"id":2,"method":"session.status","params":{}} -> held 2
unanswer session.status -> ok
> 1 STATUS -> < 1 READY
release 2 -> < 1 {"id":2,"result":{"message":"ready","ready":true},"type":"success"}
release 2 -> no effect: no command of this number is held
release 1 {"result":{"late":true}} -> < 1 {"id":1,"result":{"late":true},"type":"success"}
release 1 {"result":{}} -> no effect: no command of this number is held
release 3 -> no effect: no command of this number is held
# a row that holds goes after its uses
open 1 /session -> opened 1
hold {"method":"session.status","times":1} -> ok
> 1 STATUS -> held 1
> 1 STATUS -> < 1 READY
# a held command goes to the machine as if it had come now
open 1 /session -> opened 1
hold {"method":"session.new"} -> ok
> 1 NEW -> held 1
> 1 {"id":1,"method":"session.end","params":{}} -> < 1 {"error":"invalid session id","id":1,"message":"invalid session id","type":"error"}
release 1 -> < 1 MADE
> 1 {"id":1,"method":"session.end","params":{}} -> < 1 {"id":1,"result":{},"type":"success"}, close 1
# a held command whose connection is gone is lost
open 1 /session -> opened 1
hold {"method":"session.status"} -> ok
> 1 STATUS -> held 1
> 1 STATUS -> held 2
> 1 STATUS -> held 3
> 1 STATUS -> held 4
drop 1 -> ok
release 1 -> lost 1
release 2 {"result":{}} -> lost 1
open 1 /session -> opened 1
release 3 -> lost 1
release 4 {"result":{}} -> lost 1
> 1 STATUS -> held 5
open 1 /session -> denied 1
release 5 -> < 1 READY
# a held command whose session ends meanwhile is lost
open 1 /session -> opened 1
> 1 NEW -> < 1 MADE
hold {"method":"m"} -> ok
> 1 {"id":3,"method":"m","params":{}} -> held 1
> 1 {"id":4,"method":"session.end","params":{}} -> < 1 {"id":4,"result":{},"type":"success"}, close 1
release 1 -> lost 1
# events that follow those of the machine, with its context, navigation and URL
open 1 /session -> opened 1
> 1 NEW -> < 1 MADE
on browsingContext.navigationStarted [{"method":"network.beforeRequestSent","params":{"context":"$context","navigation":"$navigation","request":{"url":"$url","t":1.5}}},{"method":"x.y","params":{}}] -> ok
> 1 {"id":2,"method":"session.subscribe","params":{"events":["browsingContext.navigationStarted"]}} -> < 1 {"id":2,"result":{"subscription":"00000001-0005-8000-8000-000000000001"},"type":"success"}
> 1 {"id":3,"method":"browsingContext.navigate","params":{"context":"C1","url":"http://a.test/"}} -> < 1 {"method":"browsingContext.navigationStarted","params":{"context":"C1","navigation":"00000000-0004-8000-8000-000000000001","timestamp":0,"url":"http://a.test/"},"type":"event"}, < 1 {"method":"network.beforeRequestSent","params":{"context":"C1","navigation":"00000000-0004-8000-8000-000000000001","request":{"url":"http://a.test/","t":1.5}},"type":"event"}, < 1 {"method":"x.y","params":{},"type":"event"}, < 1 {"id":3,"result":{"navigation":"00000000-0004-8000-8000-000000000001","url":"http://a.test/"},"type":"success"}
emit {"method":"browsingContext.navigationStarted","params":{}} -> < 1 {"method":"browsingContext.navigationStarted","params":{},"type":"event"}
on browsingContext.navigationStarted [] -> ok
> 1 {"id":4,"method":"browsingContext.navigate","params":{"context":"C1","url":"http://a.test/"}} -> < 1 {"method":"browsingContext.navigationStarted","params":{"context":"C1","navigation":"00000000-0004-8000-8000-000000000002","timestamp":0,"url":"http://a.test/"},"type":"event"}, < 1 {"id":4,"result":{"navigation":"00000000-0004-8000-8000-000000000002","url":"http://a.test/"},"type":"success"}
# what an event does not say is null
open 1 /session -> opened 1
> 1 NEW -> < 1 MADE
on log.entryAdded [{"method":"a","params":{"l":["$context","$navigation","$url","$other"]}}] -> ok
> 1 {"id":2,"method":"session.subscribe","params":{"events":["log"]}} -> < 1 {"id":2,"result":{"subscription":"00000001-0005-8000-8000-000000000001"},"type":"success"}
log C1 info x -> < 1 {"method":"log.entryAdded","params":{"args":[{"type":"string","value":"x"}],"level":"info","method":"info","source":{"context":"C1","realm":"00000000-0003-8000-8000-000000000001"},"text":"x","timestamp":0,"type":"console"},"type":"event"}, < 1 {"method":"a","params":{"l":["C1",null,null,"$other"]},"type":"event"}
# names that are known may be subscribed to, and sessions hold them
open 1 /session -> opened 1
> 1 NEW -> < 1 MADE
> 1 {"id":2,"method":"session.subscribe","params":{"events":["network"]}} -> < 1 {"error":"invalid argument","id":2,"message":"invalid argument","type":"error"}
names network goog:cdp.Page x.y -> ok
> 1 {"id":2,"method":"session.subscribe","params":{"events":["network","log.entryAdded"]}} -> < 1 {"id":2,"result":{"subscription":"00000001-0005-8000-8000-000000000001"},"type":"success"}
emit {"method":"network.fetchError","params":{}} -> < 1 {"method":"network.fetchError","params":{},"type":"event"}
emit {"method":"network","params":{}} -> < 1 {"method":"network","params":{},"type":"event"}
emit {"method":"networks.fetchError","params":{}} -> ok
emit {"method":"log.entryAdded","params":{}} -> < 1 {"method":"log.entryAdded","params":{},"type":"event"}
emit {"method":"x.y","params":{}} -> ok
> 1 {"id":3,"method":"session.subscribe","params":{"events":["x.z"]}} -> < 1 {"error":"invalid argument","id":3,"message":"invalid argument","type":"error"}
> 1 {"id":3,"method":"session.subscribe","params":{"events":["x.y"],"contexts":["C1"]}} -> < 1 {"id":3,"result":{"subscription":"00000001-0005-8000-8000-800000000001"},"type":"success"}
emit {"method":"x.y","params":{}} -> ok
emit {"method":"x.y","params":{"context":"C1"}} -> < 1 {"method":"x.y","params":{"context":"C1"},"type":"event"}
> 1 {"id":4,"method":"session.unsubscribe","params":{"events":["x.y"]}} -> < 1 {"error":"invalid argument","id":4,"message":"invalid argument","type":"error"}
> 1 {"id":4,"method":"session.unsubscribe","params":{"subscriptions":["00000001-0005-8000-8000-800000000001"]}} -> < 1 {"id":4,"result":{},"type":"success"}
emit {"method":"x.y","params":{"context":"C1"}} -> ok
> 1 {"id":5,"method":"session.unsubscribe","params":{"events":["log.entryAdded","network"]}} -> < 1 {"id":5,"result":{},"type":"success"}
emit {"method":"network.fetchError","params":{}} -> ok
emit {"method":"log.entryAdded","params":{}} -> ok
> 1 {"id":6,"method":"session.subscribe","params":{"events":["x.y"],"userContexts":["default"]}} -> < 1 {"id":6,"result":{"subscription":"00000001-0005-8000-8000-800000000002"},"type":"success"}
emit {"method":"x.y","params":{"source":{"context":"C1"}}} -> < 1 {"method":"x.y","params":{"source":{"context":"C1"}},"type":"event"}
> 1 {"id":7,"method":"session.subscribe","params":{"events":["x.y"],"contexts":["nowhere"]}} -> < 1 {"error":"no such frame","id":7,"message":"no such frame","type":"error"}
> 1 {"id":8,"method":"session.end","params":{}} -> < 1 {"id":8,"result":{},"type":"success"}, close 1
emit {"method":"x.y","params":{"source":{"context":"C1"}}} -> ok
# a command that does not fit is refused, whatever its names are
open 1 /session -> opened 1
> 1 NEW -> < 1 MADE
names x.y -> ok
> 1 {"id":2,"method":"session.subscribe","params":{"events":["x.y"],"contexts":[]}} -> < 1 INVALID2
> 1 {"id":2,"method":"session.subscribe","params":{"events":["x.y"],"contexts":"C1"}} -> < 1 INVALID2
> 1 {"id":2,"method":"session.subscribe","params":{"events":["x.y",1]}} -> < 1 INVALID2
> 1 {"id":2,"method":"session.subscribe","params":{"events":["x.y"],"odd":1.5}} -> < 1 INVALID2
> 1 {"id":2,"method":"session.subscribe","params":{"events":["x.y"]},"odd":DEEP61} -> < 1 INVALID2
> 1 {"id":2,"method":"session.subscribe","params":{"events":["x.y"],"odd":1e400}} -> < 1 NOJSON
> 1 {"id":2,"method":"session.subscribe","params":{"events":["x.y"],"contexts":["C1"],"userContexts":["default"]}} -> < 1 INVALID2
> 1 {"id":2,"method":"session.subscribe","params":{"events":["x.y","x.z"]}} -> < 1 INVALID2
> 1 {"id":2,"method":"session.subscribe","params":{"events":["x.z"],"contexts":["nowhere"]}} -> < 1 INVALID2
> 1 {"id":2,"method":"session.unsubscribe","params":{"events":["x.y"],"subscriptions":["s"]}} -> < 1 INVALID2
> 1 {"id":2,"method":"session.unsubscribe","params":{"events":["x.y",null]}} -> < 1 INVALID2
> 1 {"id":2,"method":"session.unsubscribe","params":{"events":["x.y"]}} -> < 1 INVALID2
emit {"method":"x.y","params":{}} -> ok
# a name is given back by itself alone, and only if all names are
open 1 /session -> opened 1
> 1 NEW -> < 1 MADE
names x -> ok
> 1 {"id":2,"method":"session.subscribe","params":{"events":["x.y","log.entryAdded"]}} -> < 1 {"id":2,"result":{"subscription":"00000001-0005-8000-8000-000000000001"},"type":"success"}
> 1 {"id":2,"method":"session.unsubscribe","params":{"events":["x"]}} -> < 1 INVALID2
> 1 {"id":2,"method":"session.unsubscribe","params":{"events":["x.y","script.message"]}} -> < 1 INVALID2
> 1 {"id":2,"method":"session.unsubscribe","params":{"events":["x.z","log.entryAdded"]}} -> < 1 INVALID2
emit {"method":"x.y","params":{}} -> < 1 {"method":"x.y","params":{},"type":"event"}
emit {"method":"log.entryAdded","params":{}} -> < 1 {"method":"log.entryAdded","params":{},"type":"event"}
> 1 {"id":3,"method":"session.unsubscribe","params":{"events":["x.y"],"subscriptions":[]}} -> < 1 {"id":3,"result":{},"type":"success"}
emit {"method":"x.y","params":{}} -> ok
emit {"method":"log.entryAdded","params":{}} -> < 1 {"method":"log.entryAdded","params":{},"type":"event"}
> 1 {"id":2,"method":"session.unsubscribe","params":{"events":["x.y"]}} -> < 1 INVALID2
# subscriptions end by their ids, those that only the test keeps and the others
open 1 /session -> opened 1
> 1 NEW -> < 1 MADE
names x -> ok
> 1 {"id":3,"method":"session.subscribe","params":{"events":["x"]}} -> < 1 {"id":3,"result":{"subscription":"00000001-0005-8000-8000-800000000001"},"type":"success"}
> 1 {"id":3,"method":"session.subscribe","params":{"events":["x.y","log"]}} -> < 1 {"id":3,"result":{"subscription":"00000001-0005-8000-8000-000000000001"},"type":"success"}
> 1 {"id":3,"method":"session.subscribe","params":{"events":["x.z"]}} -> < 1 {"id":3,"result":{"subscription":"00000001-0005-8000-8000-800000000002"},"type":"success"}
> 1 {"id":2,"method":"session.unsubscribe","params":{"subscriptions":["00000001-0005-8000-8000-800000000001","nothing"]}} -> < 1 INVALID2
> 1 {"id":2,"method":"session.unsubscribe","params":{"subscriptions":["00000001-0005-8000-8000-800000000003"]}} -> < 1 INVALID2
emit {"method":"x.a","params":{}} -> < 1 {"method":"x.a","params":{},"type":"event"}
> 1 {"id":4,"method":"session.unsubscribe","params":{"subscriptions":["00000001-0005-8000-8000-800000000001","00000001-0005-8000-8000-000000000001","00000001-0005-8000-8000-800000000001"]}} -> < 1 {"id":4,"result":{},"type":"success"}
emit {"method":"x.a","params":{}} -> ok
emit {"method":"x.y","params":{}} -> ok
emit {"method":"log.entryAdded","params":{}} -> ok
emit {"method":"x.z","params":{}} -> < 1 {"method":"x.z","params":{},"type":"event"}
> 1 {"id":2,"method":"session.unsubscribe","params":{"subscriptions":["00000001-0005-8000-8000-800000000001"]}} -> < 1 INVALID2
# a subscription that only the test keeps has a number of its own among all sessions
open 1 /session -> opened 1
> 1 NEW -> < 1 MADE
open 2 /session -> opened 2
> 2 NEW -> < 2 MADE2
names x -> ok
> 1 {"id":3,"method":"session.subscribe","params":{"events":["x"]}} -> < 1 {"id":3,"result":{"subscription":"00000001-0005-8000-8000-800000000001"},"type":"success"}
> 2 {"id":3,"method":"session.subscribe","params":{"events":["x"]}} -> < 2 {"id":3,"result":{"subscription":"00000002-0005-8000-8000-800000000002"},"type":"success"}
> 2 {"id":2,"method":"session.unsubscribe","params":{"subscriptions":["00000001-0005-8000-8000-800000000001"]}} -> < 2 INVALID2
emit {"method":"x","params":{}} -> < 1 {"method":"x","params":{},"type":"event"}, < 2 {"method":"x","params":{},"type":"event"}
# events of a test in a module of the profile come by the module only if it is known itself
open 1 /session -> opened 1
> 1 NEW -> < 1 MADE
names log.x -> ok
> 1 {"id":3,"method":"session.subscribe","params":{"events":["log"]}} -> < 1 {"id":3,"result":{"subscription":"00000001-0005-8000-8000-000000000001"},"type":"success"}
emit {"method":"log.x","params":{}} -> ok
names log log -> ok
emit {"method":"log.x","params":{}} -> ok
> 1 {"id":4,"method":"session.subscribe","params":{"events":["log"]}} -> < 1 {"id":4,"result":{"subscription":"00000001-0005-8000-8000-000000000002"},"type":"success"}
emit {"method":"log.x","params":{}} -> < 1 {"method":"log.x","params":{},"type":"event"}
> 1 {"id":5,"method":"session.unsubscribe","params":{"events":["log"]}} -> < 1 {"id":5,"result":{},"type":"success"}
emit {"method":"log.x","params":{}} -> ok
# a held command asks for names when it is released
open 1 /session -> opened 1
> 1 NEW -> < 1 MADE
hold {"method":"session.subscribe","times":1} -> ok
> 1 {"id":3,"method":"session.subscribe","params":{"events":["x"]}} -> held 1
names x -> ok
release 1 -> < 1 {"id":3,"result":{"subscription":"00000001-0005-8000-8000-800000000001"},"type":"success"}
emit {"method":"x","params":{}} -> < 1 {"method":"x","params":{},"type":"event"}
# all names are known, also those of the profile's modules
open 1 /session -> opened 1
> 1 NEW -> < 1 MADE
names * -> ok
> 1 {"id":2,"method":"session.subscribe","params":{"events":["script","cdp.Any"]}} -> < 1 {"method":"script.realmCreated","params":{"context":"C1","origin":"null","realm":"00000000-0003-8000-8000-000000000001","type":"window"},"type":"event"}, < 1 {"id":2,"result":{"subscription":"00000001-0005-8000-8000-000000000001"},"type":"success"}
emit {"method":"script.message","params":{}} -> < 1 {"method":"script.message","params":{},"type":"event"}
emit {"method":"cdp.Any","params":{}} -> < 1 {"method":"cdp.Any","params":{},"type":"event"}
emit {"method":"cdp.Other","params":{}} -> ok
names a,b -> no effect: NAME
names  -> no effect: NAME
# rows that are refused
answer {"result":{}} -> no effect: "method" is not a string
answer {"method":1,"result":{}} -> no effect: "method" is not a string
answer {"method":"m"} -> no effect: REPLY
answer {"method":"m","result":[]} -> no effect: REPLY
answer {"method":"m","result":{},"error":"e"} -> no effect: REPLY
answer {"method":"m","result":{},"message":"e"} -> no effect: REPLY
answer {"method":"m","error":"e","message":1} -> no effect: REPLY
answer {"method":"m","message":"e"} -> no effect: REPLY
answer {"method":"m","result":{},"nope":1} -> no effect: SHAPE
answer ["m"] -> no effect: SHAPE
answer {"method":"m" -> no effect: the row is not JSON
answer {"method":"m","result":{},"times":0} -> no effect: TIMES
answer {"method":"m","result":{},"times":-1} -> no effect: TIMES
answer {"method":"m","result":{},"times":1.0} -> no effect: TIMES
answer {"method":"m","result":{},"times":"1"} -> no effect: TIMES
answer {"method":"m","result":{},"before":{}} -> no effect: "before" and "after" are arrays of events
answer {"method":"m","result":{},"after":[{"method":"e"}]} -> no effect: "params" of an event is not an object
answer {"method":"m","result":{},"after":[{"params":{}}]} -> no effect: "method" is not a string
answer {"method":"m","result":{},"after":[7]} -> no effect: SHAPE
answer {"method":"m","params":DEEP60,"result":{}} -> ok
answer {"method":"m","params":DEEP61,"result":{}} -> no effect: "params" nests more than 60 levels deep
answer {"method":"m","error":"none of the profile's"} -> ok
hold {"method":"m","result":{}} -> no effect: SHAPE
hold {"params":{}} -> no effect: "method" is not a string
emit {"method":"m"} -> no effect: "params" of an event is not an object
emit {"method":"m","params":{},"type":"event"} -> no effect: SHAPE
release 1 {"result":{}} -> no effect: no command of this number is held"#;

/// What words of the table stand for.
const WORDS: [(&str, &str); 14] = [
    (
        "NAME",
        "a name has 1 to 255 letters, digits, '.', ':', '-' and '_'",
    ),
    (
        "STATUS",
        r#"{"id":1,"method":"session.status","params":{}}"#,
    ),
    (
        "READY",
        r#"{"id":1,"result":{"message":"ready","ready":true},"type":"success"}"#,
    ),
    (
        "NOJSON",
        r#"{"error":"invalid argument","id":null,"message":"invalid argument","type":"error"}"#,
    ),
    (
        "INVALID2",
        r#"{"error":"invalid argument","id":2,"message":"invalid argument","type":"error"}"#,
    ),
    (
        "UNKNOWN",
        r#"{"error":"unknown command","id":1,"message":"unknown command","type":"error"}"#,
    ),
    (
        "NEW",
        r#"{"id":0,"method":"session.new","params":{"capabilities":{}}}"#,
    ),
    (
        "MADE2",
        r#"{"id":0,"result":{"capabilities":{"acceptInsecureCerts":false,"browserName":"memory-browser","browserVersion":"1.0","platformName":"none","setWindowRect":false,"userAgent":"memory-browser/1.0"},"sessionId":"00000000-0001-8000-8000-000000000002"},"type":"success"}"#,
    ),
    (
        "MADE",
        r#"{"id":0,"result":{"capabilities":{"acceptInsecureCerts":false,"browserName":"memory-browser","browserVersion":"1.0","platformName":"none","setWindowRect":false,"userAgent":"memory-browser/1.0"},"sessionId":"00000000-0001-8000-8000-000000000001"},"type":"success"}"#,
    ),
    (
        "REPLY",
        r#"the row needs an object "result" or a string "error", which may have a string "message""#,
    ),
    (
        "SHAPE",
        "the row is not an object with the properties of a row",
    ),
    (
        "TIMES",
        r#""times" is not a number from 1 to 9007199254740991"#,
    ),
    ("C1", "00000000-0002-8000-8000-000000000001"),
    (
        "MANY",
        r#""a":1,"b":1,"c":1,"d":1,"e":1,"f":1,"g":1,"h":1,"i":1,"j":1,"k":1,"l":1,"m":1,"n":1,"o":1,"p":1"#,
    ),
];

#[test]
fn each_line_brings_about_what_the_table_says(rt: HostRuntime) -> Result<(), Fail> {
    let alloc = rt.alloc();
    let mut end = ScriptedEnd::new(alloc)?;
    for row in SCENES.lines() {
        if row.starts_with("# ") {
            end = ScriptedEnd::new(alloc)?;
            continue;
        }
        check_row(alloc, &mut end, row)?;
    }
    Ok(())
}

/// Checks one row.
fn check_row(alloc: Global, end: &mut ScriptedEnd, row: &str) -> Result<(), Fail> {
    let row = spelled_out(alloc, row)?;
    let (line, wanted) = row.as_str().split_once(" -> ").ok_or("a row")?;
    let found = found_by(alloc, end, line)?;
    if found.as_str() != wanted {
        return Err(Fail::new(format_args!("{line} gives {found}")));
    }
    Ok(())
}

/// A row with what its words stand for.
fn spelled_out(alloc: Global, row: &str) -> Result<String, AllocError> {
    let mut row = String::from_str(alloc, row)?;
    for (word, text) in WORDS {
        row = row.replace(alloc, word, text)?;
    }
    for (word, levels) in [("DEEP60", 60), ("DEEP61", 61)] {
        let open = "[".repeat(alloc, levels)?;
        let close = "]".repeat(alloc, levels)?;
        let deep = format!(in alloc; "{open}{close}")?;
        row = row.replace(alloc, word, deep.as_str())?;
    }
    if row.as_str().contains("FULL") {
        let blanks = " ".repeat(alloc, 1_048_576 - r#"{"id":1,"method":"m"}"#.len())?;
        row = row.replace(alloc, "FULL", blanks.as_str())?;
    }
    Ok(row)
}

/// What comes of a line.
pub(crate) fn found_by(alloc: Global, end: &mut ScriptedEnd, line: &str) -> Result<String, Fail> {
    let (word, rest) = line.split_once(' ').ok_or("a word")?;
    match word {
        "answer" => done(alloc, end.answer(rest)),
        "hold" => done(alloc, end.hold(rest)),
        "unanswer" => done(alloc, end.unanswer(rest)),
        "emit" => sent_by(alloc, end.emit(rest)),
        "names" => done(alloc, end.names(rest)),
        "on" => {
            let (method, events) = rest.split_once(' ').ok_or("a method")?;
            done(alloc, end.on(method, events))
        }
        "release" => match rest.split_once(' ') {
            Some((number, answer)) => {
                let number = number.parse::<u64>()?;
                sent_by(alloc, end.release_with(number, answer))
            }
            None => match end.release(rest.parse::<u64>()?) {
                Ok(taken) => told(alloc, end, taken),
                Err(fault) => Ok(format!(in alloc; "no effect: {fault}")?),
            },
        },
        _ => stepped(alloc, end, line),
    }
}

/// What comes of the line of a play.
fn stepped(alloc: Global, end: &mut ScriptedEnd, line: &str) -> Result<String, Fail> {
    let step = read_step_text(alloc, line)?.ok_or("a play line")?;
    let taken = end.step(step)?;
    told(alloc, end, taken)
}

/// What a call of a test did.
fn done(alloc: Global, done: Result<(), ScriptFault>) -> Result<String, Fail> {
    match done {
        Ok(()) => Ok(String::from_str(alloc, "ok")?),
        Err(fault) => Ok(format!(in alloc; "no effect: {fault}")?),
    }
}

/// What is sent for a call of a test.
fn sent_by(alloc: Global, sent: Result<Vec<Sent>, ScriptFault>) -> Result<String, Fail> {
    match sent {
        Ok(sent) => lines_of(alloc, sent),
        Err(fault) => Ok(format!(in alloc; "no effect: {fault}")?),
    }
}

/// What came of a step: what is sent for it, with what follows, or the number of a command that is held.
fn told(alloc: Global, end: &ScriptedEnd, taken: Taken) -> Result<String, Fail> {
    let sent = match taken {
        Taken::HandedOn(sent) => sent,
        Taken::Answered(sent) => return lines_of(alloc, sent),
        Taken::Held(number) => return Ok(format!(in alloc; "held {number}")?),
    };
    let mut all = Vec::new(alloc);
    for one in sent {
        let mut more = end.followers_of(&one)?;
        all.push(one)?;
        all.append(&mut more)?;
    }
    lines_of(alloc, all)
}

/// What is sent, as the lines of a play; `ok` if nothing is.
fn lines_of(alloc: Global, sent: Vec<Sent>) -> Result<String, Fail> {
    let mut all = String::new(alloc);
    for one in sent {
        if !all.is_empty() {
            all.push_str(", ")?;
        }
        all.push_str(line_of(alloc, &one)?.as_str())?;
    }
    if all.is_empty() {
        all.push_str("ok")?;
    }
    Ok(all)
}

/// What is sent, as the line of a play.
fn line_of(alloc: Global, sent: &Sent) -> Result<String, AllocError> {
    match sent {
        Sent::Text(conn, text) => format!(in alloc; "< {} {}", conn.value, text.as_str()),
        Sent::Close(conn) => format!(in alloc; "close {}", conn.value),
        Sent::Opened(conn) => format!(in alloc; "opened {}", conn.value),
        Sent::Denied(conn) => format!(in alloc; "denied {}", conn.value),
        Sent::Lost(conn) => format!(in alloc; "lost {}", conn.value),
        Sent::NoEffect => String::from_str(alloc, "no effect"),
    }
}
