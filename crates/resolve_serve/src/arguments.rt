//! The arguments of the program.
use crate::error::{ServeError, is_memory};
use std::env;
use std::env::Args;
use std::rt::Env;

/// The paths of a file of hosts and of a journal, where they are given.
#[derive(Default, Drop)]
pub struct Arguments {
    pub hosts: Option<String>,
    pub journal: Option<String>,
}

/// Reads the arguments behind the program's name.
pub fn read_arguments<R: AllocGlobal + Env>(
    rt: &R,
    arguments: &mut Arguments,
) -> Result<(), ServeError> {
    match env::args(rt) {
        Ok(given) => read_given(given, arguments),
        Err(error) if is_memory(&error) => Err(ServeError::Memory),
        Err(_) => Err(ServeError::PathNotUtf8),
    }
}

fn read_given(given: Args, arguments: &mut Arguments) -> Result<(), ServeError> {
    let mut given = given;
    drop(given.next());
    let read = read_pairs(&mut given, arguments);
    drop(given);
    read
}

fn read_pairs(given: &mut Args, arguments: &mut Arguments) -> Result<(), ServeError> {
    for _ in 0..3 {
        match given.next() {
            Some(option) => read_path(arguments, option, given.next())?,
            None => return Ok(()),
        }
    }
    Err(ServeError::Usage)
}

fn read_path(
    arguments: &mut Arguments,
    option: String,
    path: Option<String>,
) -> Result<(), ServeError> {
    let read = match option.as_str() {
        "--hosts" => put(&mut arguments.hosts, path),
        "--journal" => put(&mut arguments.journal, path),
        _ => Err(ServeError::Usage),
    };
    drop(option);
    read
}

// Puts a path where there is none yet.
fn put(place: &mut Option<String>, path: Option<String>) -> Result<(), ServeError> {
    if place.is_some() || path.is_none() {
        return Err(ServeError::Usage);
    }
    *place = path;
    Ok(())
}
