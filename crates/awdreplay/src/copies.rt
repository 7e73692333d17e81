// Copies of a document that lie otherwise in memory.
ghost use Rattle.std.specs.Prelude.{◌≡◌, length, IfOk};
ghost use Rattle.awd_source.specs.Bytes.{part};
ghost use Rattle.awd_source.specs.Pages.{paged};
ghost use Rattle.awdreplay.specs.Copies.{page_count, backwards};

use anyhow::bail;
use awd_fault::Fault;
use awd_source::{Pages, Run, Window};
use std::alloc::{AllocError, Global};

const PAGE: usize = 512;

// The bytes of 65535 pages.
const MAX_PAGED: usize = 33_553_920;

// What stands where no byte of the document does.
const FILLER: u8 = 0xa5;

const FILL: [u8; PAGE] = [FILLER; PAGE];

const IN_FRONT: u64 = 7;

const BEHIND: usize = 5;

// A document in pages, the last page first and filled up, and the list that names them in the document's order.
#[derive(Drop)]
pub struct Shuffled {
    stored: Vec<u8>,
    list: Vec<u16>,
    size: usize,
}

impl Shuffled {
    // The listed pages, cut to their length, are the document.
    pub fn new(heap: Global, document: &[u8]) -> anyhow::Result<Shuffled>
        ensures { IfOk result (λ s. paged s.stored.items s.list.items s.size ≡ document.now) }
    {
        let Ok(count) = u16::try_from(document.len().div_ceil(PAGE)) else {
            bail!("document over {MAX_PAGED}");
        };
        Ok(Shuffled {
            stored: shuffle(heap, document)?,
            list: backwards(heap, count)?,
            size: document.len(),
        })
    }

    // The listed pages, cut to the document's length.
    pub fn source(&self) -> Result<Pages<'_>, Fault>
        ensures { IfOk result (λ p. (p.run.held.now ≡ self.now.stored.items) × (p.list.now ≡ self.now.list.items) × (p.size ≡ self.now.size)) }
    {
        let mut pages = Pages::new();
        pages.fill(
            Run::new(self.stored.as_slice()),
            self.list.as_slice(),
            self.size as u64,
        )?;
        Ok(pages)
    }
}

// So many numbers from 0, the last first.
fn backwards(heap: Global, count: u16) -> Result<Vec<u16>, AllocError>
    ensures { IfOk result (λ v. v.items ≡ backwards count) }
{
    let mut list = Vec::new(heap);
    for page in (0..count).rev() {
        list.push(page)?;
    }
    Ok(list)
}

// The pages of a document in the reverse order, each filled up.
fn shuffle(heap: Global, document: &[u8]) -> Result<Vec<u8>, AllocError>
    ensures { IfOk result (λ v. let size = length document.now in paged v.items (backwards (page_count size)) size ≡ document.now) }
{
    let mut stored = Vec::new(heap);
    let mut rest = document;
    while !rest.is_empty() {
        let (before, page) = rest.split_at((rest.len() - 1) / PAGE * PAGE);
        stored.extend_from_slice(page)?;
        stored.extend_from_slice(&FILL[page.len()..])?;
        rest = before;
    }
    Ok(stored)
}

// A document with other bytes in front of it and behind.
#[derive(Drop)]
pub struct Framed {
    stored: Vec<u8>,
    size: usize,
}

impl Framed {
    // The document stands behind the bytes in front.
    pub fn new(heap: Global, document: &[u8]) -> Result<Framed, AllocError>
        ensures { IfOk result (λ f. part f.stored.items 7 f.size ≡ document.now) }
    {
        let mut stored = Vec::new(heap);
        stored.resize(IN_FRONT as usize, FILLER)?;
        stored.extend_from_slice(document)?;
        stored.extend_from_slice(&[FILLER; BEHIND])?;
        let size = document.len();
        Ok(Framed { stored, size })
    }

    // A window that shows the document alone.
    pub fn source(&self) -> Window<Run<'_>>
        ensures { (result.below.held.now ≡ self.now.stored.items) × (result.start ≡ 7) × (result.size ≡ self.now.size) }
    {
        Window::new(Run::new(self.stored.as_slice()), IN_FRONT, self.size as u64)
    }
}
