//! Tests of what replies tell: to a command alone, and to the writes of one operation through the executor over a fake
//! link, with their failures and the forms that are refused. They stand apart from the tests of what is sent.
#![tactic(auto)]

#[cfg(test)]
mod asserting;
#[cfg(test)]
mod find_replies;
#[cfg(test)]
mod replies;
#[cfg(test)]
mod write_replies;
