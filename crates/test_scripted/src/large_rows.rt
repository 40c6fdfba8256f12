//! Rows and commands with many properties.
use crate::name_limits::check;
use bidi_scripted::ScriptedEnd;
use std::alloc::{AllocError, Global};
use std::test::Fail;

/// The first name of a property. The names are numbers.
const BEGIN: u32 = 10_000;

/// One more than the last name, so a row with these properties has fewer than 1,048,576 bytes.
const END: u32 = 90_000;

// If each property of the row were looked for among all of the command, this would take longer than a test may. The command has
// the first name twice, and only its last value is that of the row.
#[test]
fn a_row_of_many_properties_is_found_among_many(rt: HostRuntime) -> Result<(), Fail> {
    let alloc = rt.alloc();
    let all = properties(alloc)?;
    let mut end = ScriptedEnd::new(alloc)?;
    check(alloc, &mut end, "open 1 /session", "opened 1")?;
    let row = format!(in alloc;
        "answer {{\"method\":\"m\",\"params\":{{{all}}},\"result\":{{}}}}"
    )?;
    check(alloc, &mut end, row.as_str(), "ok")?;
    let command = format!(in alloc;
        "> 1 {{\"id\":1,\"method\":\"m\",\"params\":{{\"10000\":1,{all}}}}}"
    )?;
    let reply = r#"< 1 {"id":1,"result":{},"type":"success"}"#;
    check(alloc, &mut end, command.as_str(), reply)
}

/// The properties, each with the value 0.
fn properties(alloc: Global) -> Result<String, AllocError> {
    let mut all = format!(in alloc; "\"{BEGIN}\":0")?;
    for name in BEGIN + 1..END {
        all.push_str(format!(in alloc; ",\"{name}\":0")?.as_str())?;
    }
    Ok(all)
}
