// Loading: all pages of a reader copied into a store of the same size.
ghost use Rattle.std.specs.Prelude.{◌≡◌, ◌<◌, length, slice_index, slice_set};
ghost use Rattle.pages.specs.Load.{Loaded, ImageLoaded};

use crate::{Image, ImageLoadFault, LoadFault, Reader, Store};

// Copies a page that the reader and the store have.
fn copy_page<R: Reader, S: Store>(page: u32, from: &R, into: &mut S)
    requires there { page < length (R.Reader.pages from.now) }
    requires room { page < length (S.Reader.pages into.old) }
    ensures pages { S.Reader.pages into.new ≡ slice_set (S.Reader.pages into.old) page (slice_index (R.Reader.pages from.now) page) }
    ensures wrote { S.Store.wrote into.old page (slice_index (R.Reader.pages from.now) page) into.new }
{
    let word = from.read(page).unwrap();
    into.put(page, word).unwrap();
}

// Copies all pages of a reader into a store of the same size, in rising order.
pub fn load_pages<R: Reader, S: Store>(from: &R, into: &mut S) -> Result<(), LoadFault>
    ensures { Loaded S.Reader.pages S.Store.wrote (R.Reader.pages from.now) into.old result into.new }
{
    let reader = from.size();
    let store = into.size();
    if reader != store {
        return Err(LoadFault::Sizes { reader, store });
    }
    for page in 0..reader {
        copy_page(page, from, into);
    }
    Ok(())
}

// Reads an image from its bytes and loads it.
pub fn load_image<S: Store>(bytes: &[u8], into: &mut S) -> Result<(), ImageLoadFault>
    ensures { ImageLoaded S.Reader.pages S.Store.wrote bytes.now into.old result into.new }
{
    let image = Image::parse(bytes)?;
    load_pages(&image, into)?;
    Ok(())
}
