use qz_http::{Item, LinkCore, LinkEnd};
use qz_text::NoMemory;
use std::alloc::Global;
use std::test::Fail;

/// A link to which these bytes were fed whole, and which has ended.
fn ended(alloc: Global, bytes: &str) -> Result<LinkCore, NoMemory> {
    let mut link = LinkCore::new(alloc)?;
    link.feed(bytes.as_bytes())?;
    link.finish();
    Ok(link)
}

/// The status with which the head of these bytes is refused.
fn refused(alloc: Global, bytes: &str) -> Result<Option<u16>, NoMemory> {
    match ended(alloc, bytes)?.next(alloc)? {
        Item::Over(LinkEnd::Bad { status }) => Ok(Some(status)),
        Item::Ask(_) | Item::Refused(_) | Item::Bare(_) | Item::Over(_) | Item::Need => Ok(None),
    }
}

#[test]
fn heads_are_judged(rt: HostRuntime) -> Result<(), Fail> {
    let alloc = rt.alloc();
    for (bytes, status) in [
        ("GET /a\x01", 400),
        (
            "POST /api/ask HTTP/1.1\r\nTransfer-Encoding: chunked\r\n\r\n",
            501,
        ),
        (
            "POST /api/ask HTTP/1.1\r\nContent-Length: 1\r\ncontent-length: 1\r\n\r\n",
            400,
        ),
        ("POST /api/ask HTTP/1.1\r\n\r\n", 411),
        (
            "POST /api/ask HTTP/1.1\r\nContent-Length: 1048577\r\n\r\n",
            413,
        ),
    ] {
        let told = refused(alloc, bytes)?;
        assert!(rt; told == Some(status), "{bytes}");
    }
    Ok(())
}
