//! Each public call of `om_io` once, and what no clause says: what a real folder and a real output hold.

use crate::unmoved::Unmoved;
use om_io::{
    Calls, DirShelf, Files, MemShelf, MemSink, Shelf, ShelfFail, Sink, StdSink, Taken, put_all,
    put_pieces,
};
use std::alloc::Global;
use std::io::BufWriter;
use std::os::unix::fs::symlink;
use std::test::Fail;
use std::{env, fs, io, mem, process};

/// Whether the shelf gives these bytes under that name.
fn gives<S: Shelf>(shelf: &mut S, alloc: Global, name: &str, bytes: &[u8]) -> bool {
    match shelf.take(alloc, name, bytes.len() as u64) {
        Ok(Taken::Whole(taken)) => taken.bytes() == bytes,
        Ok(Taken::Longer) | Err(_) => false,
    }
}

/// Whether the shelf says that the file of that name has more than so many bytes.
fn has_more<S: Shelf>(shelf: &mut S, alloc: Global, name: &str, most: u64) -> bool {
    matches!(shelf.take(alloc, name, most), Ok(Taken::Longer))
}

/// Whether the shelf takes these bytes, and gives them.
fn holds<S: Shelf>(shelf: &mut S, alloc: Global, name: &str, bytes: &[u8]) -> bool {
    shelf.put(alloc, name, bytes).is_ok() && gives(shelf, alloc, name, bytes)
}

/// Whether nothing can be put under that name.
fn refuses<S: Shelf>(shelf: &mut S, alloc: Global, name: &str) -> bool {
    shelf.put(alloc, name, b"refused") == Err(ShelfFail::Failed)
}

/// Whether nothing can be taken under that name.
fn lacks<S: Shelf>(shelf: &mut S, alloc: Global, name: &str) -> bool {
    matches!(shelf.take(alloc, name, 9), Err(ShelfFail::Failed))
}

#[test]
fn memory_holds_what_was_put(rt: HostRuntime) -> Result<(), Fail> {
    let alloc = rt.alloc();
    let mut files = Files::new(alloc);
    files.add("a", b"first")?;
    let mut failing = Calls::new(alloc);
    failing.add(4)?;
    assert!(rt; failing.has(4));
    let mut shelf = MemShelf::new(files, failing);
    assert!(rt; gives(&mut shelf, alloc, "a", b"first"));
    assert!(rt; holds(&mut shelf, alloc, "a", b"second"));
    assert!(rt; refuses(&mut shelf, alloc, "a"));
    assert_eq!(rt; shelf.held("a"), Some(b"second".as_slice()));
    Ok(())
}

#[test]
fn memory_keeps_what_was_written(rt: HostRuntime) -> Result<(), Fail> {
    let mut sink = MemSink::new(rt.alloc(), 2, Calls::new(rt.alloc()));
    assert_eq!(rt; sink.write(b"abc"), Ok(2));
    assert_eq!(rt; put_pieces(&mut sink, &[b"c".as_slice(), b"def"]), Ok(()));
    assert_eq!(rt; sink.written(), b"abcdef".as_slice());
    Ok(())
}

/// The path of a new folder for a test of that name.
fn new_folder(rt: &HostRuntime, name: &str) -> io::Result<String> {
    let all = env::temp_dir(rt)?;
    let folder = format!(in rt.alloc();
        "{}/om_io-{name}-{}",
        all.as_str(),
        process::id(rt.process())
    )?;
    fs::create_dir_all(rt, folder.as_str())?;
    Ok(folder)
}

#[test]
fn a_folder_holds_what_was_put(rt: HostRuntime) -> Result<(), Fail> {
    let alloc = rt.alloc();
    let folder = new_folder(&rt, "put")?;
    let link = format!(in alloc; "{folder}/link")?;
    symlink(&rt, "new", link.as_str())?;
    let mut shelf = DirShelf::new(&rt, folder.as_str());

    // The second name is where the bytes of the third would be written, were it free.
    for name in ["new", "four.omni-part0", "four", "four", "link"] {
        assert!(rt; holds(&mut shelf, alloc, name, name.as_bytes()), "{name}");
    }
    for name in ["none/file", "."] {
        assert!(rt; lacks(&mut shelf, alloc, name), "{name}");
        assert!(rt; refuses(&mut shelf, alloc, name), "{name}");
    }

    // What was written to the link is in its file, and no part is left behind. The second name is absolute.
    for name in ["new", link.as_str()] {
        assert!(rt; gives(&mut shelf, alloc, name, b"link"), "{name}");
    }
    assert!(rt; has_more(&mut shelf, alloc, "four", 3));
    assert_eq!(rt; fs::read_dir(&rt, folder.as_str())?.count(), 4);
    fs::remove_dir_all(&rt, folder.as_str())?;
    Ok(())
}

#[test]
fn a_put_that_fails_leaves_the_folder_as_it_was(rt: HostRuntime) -> Result<(), Fail> {
    let alloc = rt.alloc();
    let folder = new_folder(&rt, "unmoved")?;
    let mut shelf = DirShelf::new(&rt, folder.as_str());
    assert!(rt; holds(&mut shelf, alloc, "held", b"first"));
    let files = Unmoved { files: &rt };
    let mut unmoved = DirShelf::new(&files, folder.as_str());
    for name in ["held", "new"] {
        assert!(rt; refuses(&mut unmoved, alloc, name), "{name}");
    }
    assert!(rt; gives(&mut shelf, alloc, "held", b"first"));
    assert_eq!(rt; fs::read_dir(&rt, folder.as_str())?.count(), 1);
    fs::remove_dir_all(&rt, folder.as_str())?;
    Ok(())
}

#[test]
fn a_writer_gets_what_was_written(rt: HostRuntime) -> Result<(), Fail> {
    // What waits in a buffer is handed on at once.
    let mut late = Vec::new(rt.alloc());
    let mut sink = StdSink::new(BufWriter::new(rt.alloc(), &mut late)?);
    put_all(&mut sink, b"d")?;
    mem::forget(sink);
    assert_eq!(rt; late.as_slice(), b"d".as_slice());

    // A slice that is full takes nothing more.
    let mut room = [0; 2];
    let mut sink = StdSink::new(room.as_mut_slice());
    assert!(rt; put_all(&mut sink, b"abc").is_err());
    assert_eq!(rt; room, [97, 98]);
    put_all(&mut StdSink::new(rt.stdout()), b"to standard output\n")?;
    put_all(&mut StdSink::new(rt.stderr()), b"to standard error\n")?;
    Ok(())
}
