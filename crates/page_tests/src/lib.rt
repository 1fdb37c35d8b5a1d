//! Tests of bulk writes whose answers come in pages, over a fake link: which commands go out behind the first page, which
//! rules a page may break and what the error tells then.
#![tactic(auto)]

#[cfg(test)]
mod asserting;
#[cfg(test)]
mod pages;
#[cfg(test)]
mod replies;
