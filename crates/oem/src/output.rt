// Standard output and standard error.
use std::io::Error;

pub(crate) fn put(rt: &HostRuntime, text: &[u8]) {
    if let Err(error) = rt.write_all(text) {
        fail(rt, "oem: standard output", error);
    }
}

pub(crate) fn put_error(rt: &HostRuntime, text: &[u8]) {
    let _taken = rt.stderr().write_all(text).is_ok();
}

fn without_number(said: &str) -> &str {
    match said.split_once(" (os error ") {
        Some((before, _)) => before,
        None => said,
    }
}

// A line on standard error: what failed, a colon, and what the system says of it, without the number that std writes after that.
pub(crate) fn fail(rt: &HostRuntime, what: &str, error: Error) {
    match format!(in rt.alloc(); "{error}") {
        Ok(said) => {
            let told = without_number(said.as_str());
            let _taken = eprintln!(rt; "{what}: {told}").is_ok();
        }
        Err(_) => {
            let _taken = eprintln!(rt; "{what}: {error}").is_ok();
        }
    }
}
