use crate::expecting::expect;
use inf_devices::files::{Files, OpenFault, ReadFault};
use inf_devices::sinks::{Sink, SinkFault, write_whole};
use inf_disk::disk::{DiskFiles, OutputSink, StoryPlace, StorySink};
use std::io::{self, ErrorKind};
use std::process::Abort;
use std::rt;
use std::test::Fail;

/// Names of files that are absent, and the reasons why they cannot be opened.
const ABSENT: [(&str, ErrorKind); 2] = [
    ("/no/such/file", ErrorKind::NotFound),
    ("/dev/null/file", ErrorKind::NotADirectory),
];

#[test]
fn a_missing_file_is_absent(rt: HostRuntime) {
    let place = StoryPlace::new("/no/such/story");
    let mut files = DiskFiles::new(rt.alloc(), &rt, &place);
    for (name, reason) in ABSENT {
        expect(&rt, &name, &files.open(name), &Err(OpenFault::Absent));
        expect(&rt, &name, &files.trouble.reason, &Some(reason));
    }
}

/// Names of files that give no bytes, the result of a read of one, and the reason that it leaves.
const WITHOUT_BYTES: [(&str, Result<usize, ReadFault>, Option<ErrorKind>); 2] = [
    // A folder.
    ("/", Err(ReadFault::Device), Some(ErrorKind::IsADirectory)),
    // A file that ends at once.
    ("/dev/null", Ok(0), None),
];

#[test]
fn a_folder_cannot_be_read_and_an_empty_file_ends(rt: HostRuntime) -> Result<(), Fail> {
    for (name, count, reason) in WITHOUT_BYTES {
        let place = StoryPlace::new("/no/such/story");
        let mut files = DiskFiles::new(rt.alloc(), &rt, &place);
        files.open(name)?;
        expect(&rt, &name, &files.read(&mut [0; 4]), &count);
        expect(&rt, &name, &files.trouble.reason, &reason);
        files.close();
    }
    Ok(())
}

#[test]
fn the_last_opened_file_is_read(rt: HostRuntime) -> Result<(), Fail> {
    let place = StoryPlace::new("/no/such/story");
    let mut files = DiskFiles::new(rt.alloc(), &rt, &place);
    files.open("/dev/null")?;
    files.open("/dev/zero")?;
    let mut part = [1; 4];
    expect(&rt, &"/dev/zero", &files.read(&mut part), &Ok(4));
    expect(&rt, &"/dev/zero", &part, &[0; 4]);
    files.close();
    expect(&rt, &"/dev/null", &files.read(&mut part), &Ok(0));
    files.close();
    Ok(())
}

#[test]
fn a_writer_takes_all(rt: HostRuntime) {
    let mut output = OutputSink::new(io::sink());
    expect(&rt, &"hello", &write_whole(&mut output, b"hello"), &Ok(()));
}

/// Bytes that are written, the result of writing them, and the reason that it leaves.
type Written = (&'static [u8], Result<(), usize>, Option<ErrorKind>);

/// Writes a story at this place, the one part behind the other.
fn write_story<R: rt::Files + Abort>(rt: &R, place: &StoryPlace<'_>, parts: &[Written]) {
    let mut story = StorySink::new(rt, place);
    for (bytes, answer, reason) in parts {
        expect(rt, bytes, &write_whole(&mut story, bytes), answer);
        expect(rt, bytes, &story.trouble.reason, reason);
    }
}

#[test]
fn a_story_that_cannot_be_written_is_a_failure(rt: HostRuntime) {
    let full = [(b"hello".as_slice(), Err(0), Some(ErrorKind::StorageFull))];
    write_story(&rt, &StoryPlace::new("/dev/full"), &full);
    let nowhere = [
        (b"".as_slice(), Ok(()), None),
        (b"hello".as_slice(), Err(0), Some(ErrorKind::NotFound)),
    ];
    write_story(&rt, &StoryPlace::new("/no/such/folder/story"), &nowhere);
}

#[test]
fn a_source_is_no_place_for_a_story(rt: HostRuntime) -> Result<(), Fail> {
    let place = StoryPlace::new("/dev/null");
    let mut files = DiskFiles::new(rt.alloc(), &rt, &place);
    for (name, is_source) in [("/dev/zero", false), ("/dev/../dev/null", true)] {
        files.open(name)?;
        expect(&rt, &name, &place.is_source(), &is_source);
    }
    let busy = [(b"hello".as_slice(), Err(0), Some(ErrorKind::ResourceBusy))];
    write_story(&rt, &place, &busy);
    Ok(())
}
