//! Trail files: under which name a trail stands at the end of a run, and what stands beside it.
use super::base::{BASE, right};
use super::failing::FailingFiles;
use bl_alone::alone::alone_planned_on;
use bl_alone::alone_run::AloneRun;
use bl_asked::trail::TrailFile;
use bl_disk::device::Device;
use bl_file::device::SystemFile;
use bl_trail_run::plan::{AtEnd, RunEnd, TrailEnd, TrailPlan};
use bl_trail_run::recorded::RecordedFile;
use bl_wire::watched::Watched;
use std::alloc::Global;
use std::fs;
use std::os::unix::fs::{MetadataExt, symlink};
use std::process::Abort;
use std::rt::Files;

/// What each session reads.
const LINES: &[u8] = b"hello ann\nwhen read memo do show memo; end\n";

/// Its trail.
const TRAIL: &[u8] =
    b"trail 2\nlimit 10000\nopen ann\nline 0 1 when read memo do show memo;end\nstart 0 run\nend 0 done \"m1\"\nstop\n";

/// How a session with a trail ended: its status, what was written and what was said.
#[derive(Drop)]
struct Sat {
    status: u8,
    written: Vec<u8>,
    said: Vec<u8>,
}

/// Lets go what a run has of its trail.
fn let_go<D: Device + Drop>(trail: TrailEnd<D>) {
    match trail {
        TrailEnd::InFile(RecordedFile::Whole(closed)) => drop(closed.end()),
        TrailEnd::InFile(RecordedFile::Left(device)) => drop(device),
        TrailEnd::NotKept | TrailEnd::Kept(_) => {}
    }
}

/// A session whose trail is kept.
fn sit<R: Files>(rt: &R, alloc: Global, trail: TrailFile<'_>) -> Sat {
    let mut reader = Watched::new(LINES);
    let mut writer = Watched::new(Vec::new(alloc));
    let mut errors = Watched::new(Vec::new(alloc));
    let run = AloneRun {
        alloc,
        limit: 10_000,
    };
    let plan: TrailPlan<'_, R, SystemFile<R::File>> = TrailPlan::AtEnd(AtEnd { rt, trail });
    let end = alone_planned_on(&run, BASE, plan, &mut reader, &mut writer, &mut errors);
    let RunEnd { status, trail } = end;
    let_go(trail);
    Sat {
        status,
        written: writer.into_inner(),
        said: errors.into_inner(),
    }
}

/// A trail file that neither replaces nor claims.
fn plain(name: &str) -> TrailFile<'_> {
    TrailFile {
        name,
        replaces: false,
        claims: false,
    }
}

/// A trail file that may replace a trail.
fn replacing(name: &str) -> TrailFile<'_> {
    TrailFile {
        name,
        replaces: true,
        claims: false,
    }
}

/// A trail file that is claimed.
fn claiming(name: &str) -> TrailFile<'_> {
    TrailFile {
        name,
        replaces: false,
        claims: true,
    }
}

/// Removes what earlier runs left under these names.
fn clear<R: Files>(rt: &R, names: &[&str]) {
    for name in names {
        let _ = fs::remove_file(rt, *name);
    }
}

/// Asserts that the file of this name has just these bytes.
fn assert_file<R: Files + AllocGlobal + Abort>(rt: &R, name: &str, bytes: &[u8]) {
    let found = right(rt, fs::read(rt, name));
    assert!(rt; found.as_slice() == bytes, "{name}");
    drop(found);
}

/// Asserts that nothing stands under this name.
fn assert_missing<R: Files + Abort>(rt: &R, name: &str) {
    assert!(rt; fs::symlink_metadata(rt, name).is_err(), "{name}");
}

/// Makes a file with this text.
fn put<R: Files + Abort>(rt: &R, name: &str, text: &str) {
    assert!(rt; fs::write(rt, name, text).is_ok(), "{name}");
}

/// Makes a link to what stands under the first name.
fn link<R: Files + Abort>(rt: &R, to: &str, name: &str) {
    assert!(rt; symlink(rt, to, name).is_ok(), "{name}");
}

/// Makes a folder.
fn make_folder<R: Files + Abort>(rt: &R, name: &str) {
    let _ = fs::remove_dir(rt, name);
    assert!(rt; fs::create_dir(rt, name).is_ok(), "{name}");
}

/// Removes a folder in which nothing is.
fn remove_folder<R: Files + Abort>(rt: &R, name: &str) {
    assert!(rt; fs::remove_dir(rt, name).is_ok(), "{name}");
}

/// Asserts that a session with the trail file of this name ended with this status, and with these words.
fn assert_sat(rt: &impl Abort, name: &str, sat: &Sat, status: u8, said: &str) {
    assert!(rt;
        sat.status == status && sat.said.as_slice() == said.as_bytes(),
        "{name}"
    );
}

/// Asserts that just this was written in a session.
fn assert_written(rt: &impl Abort, sat: &Sat, text: &[u8]) {
    assert!(rt; sat.written.as_slice() == text);
}

/// Asserts that a session with this trail file was served, with nothing said, and that its trail stands under the
/// file's name.
fn assert_kept<R: Files + AllocGlobal + Abort>(rt: &R, trail: TrailFile<'_>) {
    let name = trail.name;
    let sat = sit(rt, rt.alloc(), trail);
    assert_sat(rt, name, &sat, 0, "");
    drop(sat);
    assert_file(rt, name, TRAIL);
}

/// Asserts that a session with this trail file was served and that its trail was not kept, with these words and the
/// trail left in this file.
fn assert_left<R: Files + AllocGlobal + Abort>(
    rt: &R,
    trail: TrailFile<'_>,
    said: &str,
    part: &str,
) {
    let name = trail.name;
    let sat = sit(rt, rt.alloc(), trail);
    assert_written(rt, &sat, b"ok\n1 done \"m1\"\nbye\n");
    assert_sat(rt, name, &sat, 3, said);
    drop(sat);
    assert_file(rt, part, TRAIL);
}

/// Asserts that a session with this trail file was not served, since the trail cannot be kept.
fn assert_refused<R: Files + AllocGlobal + Abort>(rt: &R, trail: TrailFile<'_>) {
    let name = trail.name;
    let sat = sit(rt, rt.alloc(), trail);
    assert_written(rt, &sat, b"");
    let said = joined(rt, &["cannot write trail\nfile: ", name, "\n"]);
    assert_sat(rt, name, &sat, 3, said.as_str());
    drop(said);
    drop(sat);
}

#[test]
fn a_trail_takes_its_name(rt: HostRuntime) {
    clear(&rt, &["takes.trail", "takes.trail.part"]);
    assert_kept(&rt, plain("takes.trail"));
    assert_missing(&rt, "takes.trail.part");
    clear(&rt, &["takes.trail"]);
}

/// Nobody but the owner may read or write it.
#[test]
fn a_trail_is_its_owners(rt: HostRuntime) {
    clear(&rt, &["owned.trail", "owned.trail.part"]);
    assert_kept(&rt, plain("owned.trail"));
    let mode = fs::metadata(&rt, "owned.trail").map_or(0, |found| found.mode());
    assert!(rt; mode & 0o777 == 0o600);
    clear(&rt, &["owned.trail"]);
}

/// Asserts that what stands under a name stays as it is: a session's trail is left beside it.
fn stays<R: Files + AllocGlobal + Abort>(rt: &R, text: &str) {
    let names = ["stands.trail", "stands.trail.part"];
    let said = "cannot write trail\nthe whole trail is in stands.trail.part\n";
    put(rt, "stands.trail", text);
    assert_left(rt, plain("stands.trail"), said, "stands.trail.part");
    assert_file(rt, "stands.trail", text.as_bytes());
    clear(rt, &names);
}

/// What stands under the name stays as it is: a file, a trail of yesterday, a folder, a link to nothing.
#[test]
fn what_stands_stays(rt: HostRuntime) {
    let names = ["stands.trail", "stands.trail.part"];
    let said = "cannot write trail\nthe whole trail is in stands.trail.part\n";
    clear(&rt, &names);
    stays(&rt, "ranks u\n");
    stays(&rt, "trail 1\nlimit 1\nstop\n");
    link(&rt, "nowhere.trail", "stands.trail");
    assert_left(&rt, plain("stands.trail"), said, "stands.trail.part");
    assert_missing(&rt, "nowhere.trail");
    clear(&rt, &names);
}

#[test]
fn a_folder_stays(rt: HostRuntime) {
    let said = "cannot write trail\nthe whole trail is in folder.trail.part\n";
    let said_again = "cannot write trail\nthe whole trail is in folder.trail.part.2\n";
    clear(&rt, &["folder.trail.part"]);
    make_folder(&rt, "folder.trail");
    assert_left(&rt, plain("folder.trail"), said, "folder.trail.part");
    assert_left(
        &rt,
        replacing("folder.trail"),
        said_again,
        "folder.trail.part.2",
    );
    remove_folder(&rt, "folder.trail");
    clear(&rt, &["folder.trail.part", "folder.trail.part.2"]);
}

/// A name that is taken for the file is passed over, and no link there is followed.
#[test]
fn a_taken_part_is_passed_over(rt: HostRuntime) {
    let names = [
        "busy.trail",
        "busy.trail.part",
        "busy.trail.part.2",
        "busy.trail.part.3",
        "bait",
    ];
    clear(&rt, &names);
    put(&rt, "bait", "bait");
    link(&rt, "bait", "busy.trail.part");
    put(&rt, "busy.trail.part.2", "other");
    assert_kept(&rt, plain("busy.trail"));
    assert_file(&rt, "bait", b"bait");
    assert_file(&rt, "busy.trail.part.2", b"other");
    assert_missing(&rt, "busy.trail.part.3");
    clear(&rt, &names);
}

/// Where it may, a trail replaces a trail, and nothing else.
#[test]
fn a_trail_alone_is_replaced(rt: HostRuntime) {
    let names = ["old.trail", "old.trail.part"];
    let said = "cannot write trail\nthe whole trail is in old.trail.part\n";
    clear(&rt, &names);
    put(&rt, "old.trail", "trail 1\nlimit 1\nstop\n");
    assert_kept(&rt, replacing("old.trail"));
    assert_missing(&rt, "old.trail.part");
    put(&rt, "old.trail", "ranks u\n");
    assert_left(&rt, replacing("old.trail"), said, "old.trail.part");
    assert_file(&rt, "old.trail", b"ranks u\n");
    clear(&rt, &names);
}

/// A trail that is claimed is told before anybody is served where it cannot be kept, and nothing is left of it.
#[test]
fn a_claim_is_told_first(rt: HostRuntime) {
    let names = ["claimed.trail", "claimed.trail.part"];
    clear(&rt, &names);
    put(&rt, "claimed.trail", "trail 1\nlimit 1\nstop\n");
    for name in ["claimed.trail", "nowhere/claimed.trail", ""] {
        assert_refused(&rt, claiming(name));
    }
    assert_missing(&rt, "claimed.trail.part");
    clear(&rt, &names);
    assert_kept(&rt, claiming("claimed.trail"));
    clear(&rt, &names);
}

/// A name of so many bytes.
fn long_name<R: AllocGlobal + Abort>(rt: &R, length: usize) -> String {
    let mut name = String::new(rt.alloc());
    for _ in 0..length {
        right(rt, name.push('n'));
    }
    name
}

/// Asserts that a trail takes a name of so many bytes.
fn takes_name<R: Files + AllocGlobal + Abort>(rt: &R, length: usize) {
    let name = long_name(rt, length);
    clear(rt, &[name.as_str()]);
    assert_kept(rt, plain(name.as_str()));
    clear(rt, &[name.as_str()]);
    drop(name);
}

/// A name of 255 bytes, the most that a component may have, leaves no room for `.part`.
#[test]
fn a_long_name_is_cut_for_its_part(rt: HostRuntime) {
    for length in [250usize, 251, 255] {
        takes_name(&rt, length);
    }
}

/// The text of these parts, one behind the other.
fn joined<R: AllocGlobal + Abort>(rt: &R, parts: &[&str]) -> String {
    let mut text = String::new(rt.alloc());
    for part in parts {
        right(rt, text.push_str(part));
    }
    text
}

/// Asserts that where a name in a folder is taken the trail is left in the part, which is told with these words.
fn is_cut_in_its_folder<R: Files + AllocGlobal + Abort>(
    rt: &R,
    name: &str,
    part: &str,
    said: &str,
) {
    let _ = fs::create_dir(rt, "long.folder");
    clear(rt, &[name, part]);
    put(rt, name, "other");
    assert_left(rt, plain(name), said, part);
    clear(rt, &[name, part]);
    remove_folder(rt, "long.folder");
}

/// Of a long name in a folder the last component alone is cut, and no character is cut in two.
#[test]
fn a_long_name_is_cut_in_its_folder(rt: HostRuntime) {
    let front = long_name(&rt, 249);
    let name = joined(&rt, &["long.folder/", front.as_str(), "ééé"]);
    let part = joined(&rt, &["long.folder/", front.as_str(), ".part"]);
    let said = joined(
        &rt,
        &[
            "cannot write trail\nthe whole trail is in ",
            part.as_str(),
            "\n",
        ],
    );
    is_cut_in_its_folder(&rt, name.as_str(), part.as_str(), said.as_str());
    drop(front);
    drop(name);
    drop(part);
    drop(said);
}

/// Asserts that a session whose trail's file has room for so many bytes was served, with these words.
fn assert_cut_short<R: Files + AllocGlobal + Abort>(
    rt: &R,
    room: usize,
    trail: TrailFile<'_>,
    said: &str,
) {
    let name = trail.name;
    let sat = sit(&FailingFiles { rt, room }, rt.alloc(), trail);
    assert_sat(rt, name, &sat, 3, said);
    drop(sat);
}

/// A file that fails in the middle of a trail: what was written stays, and is told; the name stays free.
#[test]
fn a_trail_is_cut_short(rt: HostRuntime) {
    let names = ["cut.trail", "cut.trail.part"];
    let said = "cannot write trail\nthe trail is cut short in cut.trail.part\n";
    clear(&rt, &names);
    assert_cut_short(&rt, 20, plain("cut.trail"), said);
    assert_file(&rt, "cut.trail.part", b"trail 2\nlimit 10000\n");
    assert_missing(&rt, "cut.trail");
    clear(&rt, &names);
}
