use crate::answer::Answer;
use crate::call::Call;
use std::fs;
use std::os::unix::fs::PermissionsExt;

pub fn file_call(rt: &HostRuntime, call: Call<'_>, bytes: &[u8]) -> Answer {
    let path = call.first;
    match call.word {
        "remove" => remove(rt, path),
        "folder" => Answer::Done(fs::create_dir_all(rt, path).is_ok()),
        "put" => Answer::Done(fs::write(rt, path, bytes).is_ok()),
        "holds" => Answer::Is(holds(rt, path, bytes)),
        "begins" => Answer::Is(begins(rt, path, bytes)),
        "private" => Answer::Is(is_private(rt, path)),
        "there" => Answer::Is(fs::exists(rt, path).unwrap_or(false)),
        _ => Answer::Nothing,
    }
}

/// A folder that is missing is removed too.
fn remove(rt: &HostRuntime, path: &str) -> Answer {
    let _ = fs::remove_dir_all(rt, path);
    Answer::Nothing
}

fn holds(rt: &HostRuntime, path: &str, bytes: &[u8]) -> bool {
    match fs::read(rt, path) {
        Ok(read) => read.as_slice() == bytes,
        Err(_) => false,
    }
}

fn begins(rt: &HostRuntime, path: &str, bytes: &[u8]) -> bool {
    match fs::read(rt, path) {
        Ok(read) => read.starts_with(bytes),
        Err(_) => false,
    }
}

/// The file is for its owner alone.
fn is_private(rt: &HostRuntime, path: &str) -> bool {
    match fs::metadata(rt, path) {
        Ok(metadata) => metadata.permissions().mode() & 0o777 == 0o600,
        Err(_) => false,
    }
}
