use crate::tests::expect;
use hx_io::{
    Failed, MemSink, MemSource, ReadFault, Source, StdSink, StdSource, read_all, write_all,
};
use std::alloc::{AllocError, Global};
use std::io;
use std::process::Abort;
use std::test::Fail;

const INPUT: &[u8] = b"join n1";

/// What is read of INPUT, where one call fails.
fn read(alloc: Global, limit: usize, fails: u64) -> Result<Result<Vec<u8>, ReadFault>, AllocError> {
    let bytes = INPUT.to_vec(alloc)?;
    let mut source = MemSource::new(bytes, vec![in alloc; fails]?);
    Ok(read_all(alloc, &mut source, limit))
}

fn expect_read(
    rt: &impl Abort,
    found: &Result<Vec<u8>, ReadFault>,
    wanted: Result<&[u8], ReadFault>,
) {
    match found {
        Ok(read) => expect(rt, &Ok(read.as_slice()), &wanted),
        Err(fault) => expect(rt, &Err(*fault), &wanted),
    }
}

/// The limit, and the call that fails. The first call gives the bytes, and the second finds the end.
static READS: &[(usize, u64, Result<&[u8], ReadFault>)] = &[
    (100, 0, Ok(INPUT)),
    (7, 0, Ok(INPUT)),
    (6, 0, Err(ReadFault::TooLong)),
    (100, 1, Err(ReadFault::Failed)),
    (100, 2, Err(ReadFault::Failed)),
    (7, 3, Ok(INPUT)),
];

#[test]
fn reads_all_up_to_the_limit(rt: HostRuntime) -> Result<(), Fail> {
    for (limit, fails, wanted) in READS {
        let found = read(rt.alloc(), *limit, *fails)?;
        expect_read(&rt, &found, *wanted);
    }
    Ok(())
}

#[test]
fn reads_more_than_one_piece(rt: HostRuntime) -> Result<(), Fail> {
    let bytes = vec![in rt.alloc(); 7u8; 1_000_000]?;
    let mut source = MemSource::new(bytes, Vec::new(rt.alloc()));
    let read = read_all(rt.alloc(), &mut source, 1_000_000)?;
    expect(&rt, &read.len(), &1_000_000);
    for byte in read.iter() {
        assert!(rt; *byte == 7);
    }
    Ok(())
}

const OUTPUT: &[u8] = b"line 1\njoin n1 s1\n";

/// A sink that takes so many bytes, and of which one call fails, takes these of OUTPUT.
fn expect_written(
    rt: &impl Abort,
    alloc: Global,
    most: u64,
    fails: u64,
    wanted: u64,
) -> Result<(), AllocError> {
    let mut sink = MemSink::new(alloc, vec![in alloc; fails]?, most);
    let sent = match write_all(&mut sink, OUTPUT) {
        Ok(()) => 18,
        Err(fault) => fault.sent,
    };
    expect(rt, &sent, &wanted);
    let got = sink.got();
    expect(rt, &(got.len() as u64), &wanted);
    assert!(rt; OUTPUT.starts_with(got));
    Ok(())
}

#[test]
fn writes_what_the_sink_takes(rt: HostRuntime) -> Result<(), Fail> {
    for (most, fails, wanted) in [
        (100, 0, 18),
        (18, 2, 18),
        (10, 0, 10),
        (0, 0, 0),
        (100, 1, 0),
    ] {
        expect_written(&rt, rt.alloc(), most, fails, wanted)?;
    }
    Ok(())
}

fn read_into_nothing(source: &mut impl Source) -> Result<usize, Failed> {
    source.read(&mut [])
}

#[test]
fn standard_streams_read_and_write(rt: HostRuntime) -> Result<(), Fail> {
    expect(
        &rt,
        &read_into_nothing(&mut StdSource::new(rt.reader()))?,
        &0,
    );
    write_all(&mut StdSink::new(io::writer(&rt)), b"written\n")?;
    Ok(())
}
