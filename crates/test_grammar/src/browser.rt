//! User contexts: texts that fit and texts that do not, and what the constructors answer.
use bidi_params::{GetUserContextsResult, RemoveUserContextParameters, UserContextInfo};
use std::alloc::Global;
use std::test::Fail;
use testing::rows::{Asked, check_rows};
use testing::texts::{again, members_of, owned, told, value_of};

/// What a text reads as, by the name of a type.
struct UserContexts;

impl Asked for UserContexts {
    fn found(alloc: Global, word: &str, text: &str) -> Result<String, Fail> {
        match word {
            "UserContextInfo" => again::<UserContextInfo>(alloc, text),
            "GetUserContextsResult" => again::<GetUserContextsResult>(alloc, text),
            "RemoveUserContextParameters" => again::<RemoveUserContextParameters>(alloc, text),
            _ => Err(Fail::from("no such type")),
        }
    }
}

const TEXTS: &str = r#"
UserContextInfo {"x":[null],"userContext":"default","a":1} -> {"a":1,"userContext":"default","x":[null]}
UserContextInfo {"userContext":""} -> same
UserContextInfo {} -> NoFit
UserContextInfo {"userContext":null} -> NoFit
UserContextInfo {"userContext":["u"]} -> NoFit
UserContextInfo {"userContext":"u","x":1.5} -> NoFit
UserContextInfo [] -> NoFit
GetUserContextsResult {"x":1,"userContexts":[{"userContext":"default"},{"y":2,"userContext":"u"}]} -> {"userContexts":[{"userContext":"default"},{"userContext":"u","y":2}],"x":1}
GetUserContextsResult {"userContexts":[{"userContext":"u"},{"userContext":"u"}]} -> same
GetUserContextsResult {"userContexts":[]} -> NoFit
GetUserContextsResult {} -> NoFit
GetUserContextsResult {"userContexts":null} -> NoFit
GetUserContextsResult {"userContexts":{"userContext":"u"}} -> NoFit
GetUserContextsResult {"userContexts":["u"]} -> NoFit
GetUserContextsResult {"userContexts":[{"userContext":"u"},{}]} -> NoFit
RemoveUserContextParameters {"x":0,"userContext":"u"} -> {"userContext":"u","x":0}
RemoveUserContextParameters {} -> NoFit
RemoveUserContextParameters {"userContext":5} -> NoFit
RemoveUserContextParameters {"userContext":null} -> NoFit
"#;

#[test]
fn texts_fit_or_not(rt: HostRuntime) -> Result<(), Fail> {
    check_rows::<UserContexts>(rt.alloc(), TEXTS)
}

/// What becomes of the same parts with further members, by the name of a type.
struct UserContextsMade;

impl Asked for UserContextsMade {
    fn found(alloc: Global, word: &str, text: &str) -> Result<String, Fail> {
        let ext = members_of(alloc, text)?;
        match word {
            "UserContextInfo" => told(alloc, UserContextInfo::new(owned(alloc, "u")?, ext)),
            "GetUserContextsResult" => {
                let user_contexts = value_of(alloc, r#"[{"userContext":"u"}]"#)?;
                told(alloc, GetUserContextsResult::new(user_contexts, ext))
            }
            "RemoveUserContextParameters" => {
                let user_context = owned(alloc, "u")?;
                told(alloc, RemoveUserContextParameters::new(user_context, ext))
            }
            _ => Err(Fail::from("no such type")),
        }
    }
}

const MADE: &str = r#"
UserContextInfo {"x":1} -> {"userContext":"u","x":1}
UserContextInfo {"userContext":1} -> Clash
UserContextInfo {"x":«60 [»«60 ]»} -> {"userContext":"u","x":«60 [»«60 ]»}
UserContextInfo {"x":«61 [»«61 ]»} -> TooDeep
GetUserContextsResult {"userContext":1} -> {"userContext":1,"userContexts":[{"userContext":"u"}]}
GetUserContextsResult {"userContexts":[]} -> Clash
GetUserContextsResult {"x":1.5} -> TooDeep
RemoveUserContextParameters {} -> {"userContext":"u"}
RemoveUserContextParameters {"userContext":"u","x":1.5} -> Clash
RemoveUserContextParameters {"x":«61 [»«61 ]»} -> TooDeep
"#;

#[test]
fn made_with_further_members(rt: HostRuntime) -> Result<(), Fail> {
    check_rows::<UserContextsMade>(rt.alloc(), MADE)
}
