//! A resolver as a co-process: requests come on standard input, one a line; questions that are to be sent, and answers,
//! go to standard output.
#![tactic(auto)]

mod arguments;
mod error;
mod serving;

use arguments::{Arguments, read_arguments};
use error::{ServeError, is_memory};
use serving::{serve, table_bytes};
use std::process::ExitCode;
use std::{fs, io};

fn main(rt: HostRuntime) -> ExitCode {
    match run(&rt) {
        Ok(()) => ExitCode::SUCCESS,
        Err(error) => {
            let status = error.status();
            let _ = rt.eprintln(error);
            ExitCode::from(status)
        }
    }
}

fn run(rt: &HostRuntime) -> Result<(), ServeError> {
    let mut arguments = Arguments::default();
    let served = match read_arguments(rt, &mut arguments) {
        Ok(()) => serve_files(rt, &mut arguments),
        Err(error) => Err(error),
    };
    drop(arguments);
    served
}

fn serve_files(rt: &HostRuntime, arguments: &mut Arguments) -> Result<(), ServeError> {
    let hosts = table_bytes(rt, arguments.hosts.take())?;
    match arguments.journal.take() {
        Some(path) => serve_into(rt, hosts, path),
        None => serve(
            rt.alloc(),
            hosts,
            &mut rt.reader(),
            &mut rt.stdout(),
            &mut io::sink(),
        ),
    }
}

// With a journal in the file of this path.
fn serve_into(rt: &HostRuntime, hosts: Vec<u8>, path: String) -> Result<(), ServeError> {
    match fs::create(rt, path.as_str()) {
        Ok(mut journal) => {
            let served = serve(
                rt.alloc(),
                hosts,
                &mut rt.reader(),
                &mut rt.stdout(),
                &mut journal,
            );
            drop(journal);
            served
        }
        Err(error) if is_memory(&error) => Err(ServeError::Memory),
        Err(_) => Err(ServeError::Unwritable(path)),
    }
}
