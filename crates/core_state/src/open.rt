//! The pages and the words that a core is opened with.

ghost use Rattle.std.specs.Prelude.{◌≡◌, ◌+◌, ◌<◌, ◌≤◌, [], length, replicate, IfOk, None};
ghost use Rattle.evac_model.specs.Geometry.{IsWithinLimits};
ghost use Rattle.evac_model.specs.StartPages.{AreStartPages};
ghost use Rattle.core_state.specs.CoreOpens.{start_pages, opening_words};
ghost use Rattle.core_state.specs.Words.{mapped_word};

use crate::opening::OpenPage;
use evac_model::{Geometry, Kind, Listed, StartPage};
use evac_words::{after_map, entry_index};
use std::alloc::{AllocError, Global};

/// So many zeros.
pub(crate) fn zeros(alloc: Global, count: usize) -> Result<Vec<u64>, AllocError>
    ensures { IfOk result (λ v. v.items ≡ replicate count 0) }
{
    vec![in alloc; 0; count]
}

/// A place for each page number, all unmapped.
fn unmapped(alloc: Global, count: usize) -> Result<Vec<Option<OpenPage>>, AllocError>
    ensures { IfOk result (λ v. v.items ≡ replicate count None) }
{
    let mut pages = Vec::with_capacity(alloc, count)?;
    for _page in 0..count {
        pages.push(None)?;
    }
    Ok(pages)
}

/// The start pages by their numbers.
pub(crate) fn open_pages(
    alloc: Global,
    g: &Geometry,
    start: &[StartPage],
) -> Result<Vec<Option<OpenPage>>, AllocError>
    requires { AreStartPages g.now start.now }
    ensures { IfOk result (λ v. v.items ≡ start_pages g.now start.now) }
{
    let cells = g.cells() as usize;
    let mut pages = unmapped(alloc, g.pages() as usize)?;
    let mut left = start.len();
    while left > 0 {
        left -= 1;
        let p = start[left];
        pages[p.page.0 as usize] = Some(OpenPage {
            cells: Listed::from_vec(zeros(alloc, cells)?),
            kind: p.kind,
            pins: 0,
        });
    }
    Ok(pages)
}

/// The entry word of a page that is mapped to a frame, and was never called on.
fn start_word(p: &StartPage) -> u64
    requires { p.now.frame.0 < 65536 }
    ensures { result ≡ mapped_word 0 p.now.frame.0 p.now.kind }
{
    after_map(0, p.frame.0, p.kind == Kind::Unmovable)
}

/// Writes the entry words of the start pages.
fn map_pages(words: &mut [u64], g: &Geometry, start: &[StartPage])
    requires limits { IsWithinLimits g.now }
    requires start { AreStartPages g.now start.now }
    requires words { words.old ≡ opening_words g.now [] }
    ensures { words.new ≡ opening_words g.now start.now }
{
    let mut left = start.len();
    while left > 0 {
        left -= 1;
        let p = start[left];
        words[entry_index(p.page.0) as usize] = start_word(&p);
    }
}

/// The words of the table.
pub(crate) fn open_words(
    alloc: Global,
    g: &Geometry,
    start: &[StartPage],
) -> Result<Vec<u64>, AllocError>
    requires { AreStartPages g.now start.now }
    ensures { IfOk result (λ v. v.items ≡ opening_words g.now start.now) }
{
    let count = 1 + g.pages() + g.frames() + g.frames() * g.cells();
    let mut words = zeros(alloc, count as usize)?;
    map_pages(&mut words, g, start);
    Ok(words)
}
