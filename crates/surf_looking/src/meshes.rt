//! Meshes as texts.
ghost use Rattle.std.specs.Prelude.{◌≡◌};
ghost use Rattle.surf_surfaces.specs.Surface.{edge_count, IsSurface};
ghost use Rattle.surf_answers.specs.Making.{GivesMesh};
ghost use Rattle.surf_answers.specs.Tells.{Concludes};

use std::alloc::Global;
use surf_answers::Answered;
use surf_base::MAX_ANSWER;
use surf_off::write_soup;
use surf_soup::Soup;
use surf_text::Page;
use surf_texts::Refused;

// How many edges a surface has: each is two sides.
fn edges_of(soup: &Soup) -> u32
    requires { IsSurface soup.now }
    ensures edges { result ≡ edge_count soup.now }
{
    soup.side_count() / 2
}

/// The text of a surface.
pub(crate) fn made_of(alloc: Global, soup: &Soup) -> Result<Answered, Refused>
    requires { IsSurface soup.now }
    ensures { Concludes (GivesMesh soup.now) result }
{
    let mut page = Page::make(alloc, MAX_ANSWER);
    write_soup(&mut page, soup, edges_of(soup))?;
    Ok(Answered::yes(page.into_bytes()))
}
