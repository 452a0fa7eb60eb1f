// The real files and the real output.
use dsv_base::{FetchEnd, Files, Sink};
use dsv_cli::{OsFiles, OsOut};
use std::fs;
use std::test::Fail;

/// A name in the folder for temporary files, with a number of this process, that ends so.
fn temporary_name(rt: &HostRuntime, end: &str) -> Result<String, Fail> {
    let folder = std::env::temp_dir(rt)?;
    let folder = folder.as_path().to_str().ok_or("a folder's name")?;
    let process = std::process::id(rt.process());
    Ok(format!(in rt.alloc(); "{folder}/dsv-{process}-{end}.dsv")?)
}

/// Whether a fetch of four bytes gives this.
fn gives(files: &mut OsFiles, name: &str, at: u8, wanted: Result<usize, FetchEnd>) -> bool {
    let mut room = [0; 4];
    files.fetch(name, u64::from(at), &mut room) == wanted
}

/// Whether the four bytes from this place on are these.
fn holds(files: &mut OsFiles, name: &str, at: u8, bytes: &[u8]) -> bool {
    let mut room = [0; 4];
    files.fetch(name, u64::from(at), &mut room) == Ok(4) && room.as_slice() == bytes
}

#[test]
fn real_files_are_read(rt: HostRuntime) -> Result<(), Fail> {
    let name = temporary_name(&rt, "read")?;
    let mut files = OsFiles::new(rt.clone()?, rt.alloc());
    fs::write(&rt, &name, b"controller")?;
    let begins = holds(&mut files, &name, 0, b"cont");
    let goes_on = holds(&mut files, &name, 4, b"roll") && gives(&mut files, &name, 8, Ok(2));
    let ends = gives(&mut files, &name, 9, Ok(1)) && gives(&mut files, &name, 10, Ok(0));
    fs::remove_file(&rt, &name)?;
    let gone = gives(&mut files, &name, 0, Err(FetchEnd::Failed));
    assert!(rt; begins && goes_on && ends && gone);
    Ok(())
}

#[test]
fn a_file_is_no_other_s_rest(rt: HostRuntime) -> Result<(), Fail> {
    let first = temporary_name(&rt, "first")?;
    let second = temporary_name(&rt, "second")?;
    let mut files = OsFiles::new(rt.clone()?, rt.alloc());
    fs::write(&rt, &first, b"abcdefgh")?;
    fs::write(&rt, &second, b"ABCDEFGH")?;
    let begins = holds(&mut files, &first, 0, b"abcd");
    let other = holds(&mut files, &second, 4, b"EFGH");
    let back = holds(&mut files, &first, 4, b"efgh") && holds(&mut files, &first, 0, b"abcd");
    fs::remove_file(&rt, &first)?;
    fs::remove_file(&rt, &second)?;
    assert!(rt; begins && other && back);
    Ok(())
}

#[test]
fn the_real_output_takes_bytes(rt: HostRuntime) -> Result<(), Fail> {
    let mut out = OsOut::new(rt.clone()?);
    assert!(rt; out.put(b"a piece\n").is_ok());
    Ok(())
}
