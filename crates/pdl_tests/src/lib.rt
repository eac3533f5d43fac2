//! Public calls of the crates, with values from outside: a module a crate. They stand here
//! and not in the crates, since a crate with tests of its own is proved a second time for them.
#![tactic(auto)]

#[cfg(test)]
mod arrays;
#[cfg(test)]
mod broadcast;
#[cfg(test)]
mod buf;
#[cfg(test)]
mod code;
#[cfg(test)]
mod comparing;
#[cfg(test)]
mod elem;
#[cfg(test)]
mod flow;
#[cfg(test)]
mod image;
#[cfg(test)]
mod io;
#[cfg(test)]
mod kernel;
#[cfg(test)]
mod lex;
#[cfg(test)]
mod lexemes;
#[cfg(test)]
mod ops;
#[cfg(test)]
mod print;
#[cfg(test)]
mod reduce;
#[cfg(test)]
mod shape;
#[cfg(test)]
mod sig;
#[cfg(test)]
mod watch;
