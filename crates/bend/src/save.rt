// The chart's file. The chart is written to a new file with a name of its own, flushed to the disk and renamed, so that nobody ever sees half a chart.
// The new file is made exclusively: a file or a link that has its name is left alone, and another name is tried. It is removed on every failure.
// What the system refuses is said on standard error.
ghost use Rattle.std.specs.Prelude.{◌≡◌, OnOk, IsAscii};

use std::fs::{OpenFile, OpenOptions, remove_file, rename};
use std::io;
use std::io::{ErrorKind, Write};
use std::random::RandomSource;
use std::rt::Files;

// A new name for the file: a letter for each of the random bytes at its end.
fn put_letters(random: &[u8; 16], name: &mut [u8; 27])
    ensures { IsAscii name.new }
{
    *name = *b"bend.chart.aaaaaaaaaaaaaaaa";
    for (i, byte) in random.iter().enumerate() {
        name[11 + i] = b'a' + byte % 26;
    }
}

// The name as text.
fn text_of(name: &[u8; 27]) -> &str
    requires { IsAscii name.now }
    ensures { result.now ≡ name.now }
{
    str::from_utf8(name).unwrap()
}

// One try: a new file with a name drawn at random.
fn try_create<R: Files + RandomSource>(rt: &R, name: &mut [u8; 27]) -> io::Result<R::File>
    ensures { OnOk result (IsAscii name.new) }
{
    let mut random = [0u8; 16];
    rt.fill_bytes(&mut random)?;
    put_letters(&random, name);
    OpenOptions::new()
        .write(true)
        .create_new(true)
        .open(rt, text_of(name))
}

// A new file, with its name. A name that is taken is no failure, and another is tried, a hundred times at most.
fn create<R: Files + RandomSource>(rt: &R, name: &mut [u8; 27]) -> io::Result<R::File>
    ensures { OnOk result (IsAscii name.new) }
{
    for _ in 0..99 {
        match try_create(rt, name) {
            Err(why) if why.kind() == ErrorKind::AlreadyExists => {}
            answer => return answer,
        }
    }
    try_create(rt, name)
}

// Writes the chart to the file, flushes it to the disk and closes it.
fn fill<F: Write + OpenFile + Drop>(mut file: F, chart: &[u8]) -> io::Result<()> {
    file.write_all(chart)?;
    file.sync_all()
}

// Gives the new file the chart's name.
fn publish(rt: &impl Files, name: &str) -> io::Result<()> {
    rename(rt, name, "bend.chart")
}

// Removes the new file.
fn discard(rt: &impl Files, name: &str) {
    let _ = remove_file(rt, name);
}

// Writes the chart to the new file and gives it the chart's name.
fn fill_and_publish<R: Files>(rt: &R, file: R::File, name: &str, chart: &[u8]) -> io::Result<()> {
    fill(file, chart)?;
    publish(rt, name)
}

// Writes the chart to the file bend.chart, by way of a new file.
fn save_by_new<R: Files + RandomSource>(rt: &R, chart: &[u8]) -> io::Result<()> {
    let mut name = [0u8; 27];
    let file = create(rt, &mut name)?;
    let name = text_of(&name);
    let saved = fill_and_publish(rt, file, name, chart);
    if saved.is_err() {
        discard(rt, name);
    }
    saved
}

// Writes the chart to the file bend.chart, and says whether it is there.
pub fn save<R: Files + Eprint + RandomSource>(rt: &R, chart: &[u8]) -> bool {
    save_by_new(rt, chart)
        .inspect_err(|why| console::fail(rt, "bend.chart", why))
        .is_ok()
}
