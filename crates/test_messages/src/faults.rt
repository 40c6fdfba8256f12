//! The texts of faults.
use bidi_local::NoteFault;
use bidi_messages::MessageFault;
use bidi_shape::{Clash, MakeFault, ShapeFault};
use bidi_tree::ReadFault;
use std::alloc::Global;
use std::fmt::Display;
use std::test::Fail;
use testing::rows::{Asked, check_rows};

struct Faults;

impl Asked for Faults {
    fn found(alloc: Global, _: &str, fault: &str) -> Result<String, Fail> {
        match fault {
            "ReadFault::NotJson" => shown(alloc, ReadFault::NotJson),
            "ReadFault::TooLong" => shown(alloc, ReadFault::TooLong),
            "ReadFault::NoMemory" => shown(alloc, ReadFault::NoMemory),
            "Clash" => shown(alloc, Clash),
            "ShapeFault::NoFit" => shown(alloc, ShapeFault::NoFit),
            "ShapeFault::NoMemory" => shown(alloc, ShapeFault::NoMemory),
            "MakeFault::Clash" => shown(alloc, MakeFault::Clash),
            "MakeFault::Shadowed" => shown(alloc, MakeFault::Shadowed),
            "MakeFault::TooDeep" => shown(alloc, MakeFault::TooDeep),
            "MakeFault::NoMemory" => shown(alloc, MakeFault::NoMemory),
            "MessageFault::NoMemory" => shown(alloc, MessageFault::NoMemory),
            "NoteFault::NoMemory" => shown(alloc, NoteFault::NoMemory),
            "NoteFault::IdWaits" => shown(alloc, NoteFault::IdWaits),
            "NoteFault::TooManyPending" => shown(alloc, NoteFault::TooManyPending),
            _ => Err(Fail::from("no such fault")),
        }
    }
}

const TEXTS: &str = "
fault ReadFault::NotJson -> the text is not JSON
fault ReadFault::TooLong -> the text is longer than its limit
fault ReadFault::NoMemory -> out of memory
fault Clash -> a member has a known name
fault ShapeFault::NoFit -> the tree does not fit the rule
fault ShapeFault::NoMemory -> out of memory
fault MakeFault::Clash -> a further member has a known name
fault MakeFault::Shadowed -> an earlier alternative takes the value
fault MakeFault::TooDeep -> a further member has too many levels, or a number that is not kept
fault MakeFault::NoMemory -> out of memory
fault MessageFault::NoMemory -> out of memory
fault NoteFault::NoMemory -> out of memory
fault NoteFault::IdWaits -> a command with this id waits for an answer
fault NoteFault::TooManyPending -> too many commands wait for an answer
";

#[test]
fn faults_have_texts(rt: HostRuntime) -> Result<(), Fail> {
    check_rows::<Faults>(rt.alloc(), TEXTS)
}

fn shown(alloc: Global, fault: impl Display + Copy) -> Result<String, Fail> {
    Ok(format!(in alloc; "{fault}")?)
}
