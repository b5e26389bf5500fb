// Why an image or a load is refused.
ghost use Rattle.std.specs.Prelude.{◌≡◌};
ghost use Rattle.pages.specs.Image.{image_cause, image_returned};
ghost use Rattle.pages.specs.Load.{load_cause, load_returned, image_load_cause, image_load_returned};
ghost use Rattle.pages.specs.declared.fault.ImageLoadFault.TheVariants.{Unread, Unloaded};

use basics::Refusal;

// What is wrong with the bytes of an image, by the first check that fails.
#[derive(Clone, Copy, PartialEq, Eq, Debug)]
pub enum ImageFault {
    // fewer than 8 bytes: the length
    Truncated(usize),
    // more than 4,096 pages
    TooManyPages,
    // more named pages than pages
    TooManyNamed,
    // not 8 bytes and 8 for each named page: the length
    WrongLength(usize),
    // a page number that does not rise, or is not below the number of pages: its offset
    BadNumber(usize),
}

// A reader and a store of different sizes.
#[derive(Clone, Copy, PartialEq, Eq, Debug)]
pub enum LoadFault {
    Sizes { reader: u32, store: u32 },
}

// Bytes that are no image, or an image that does not fit the store.
#[derive(Clone, Copy, PartialEq, Eq, Debug)]
pub enum ImageLoadFault {
    Unread(ImageFault),
    Unloaded(LoadFault),
}

impl From<ImageFault> for ImageLoadFault {
    ghost from_gives = { λ f r. r ≡ Unread f };

    fn from(fault: ImageFault) -> ImageLoadFault {
        ImageLoadFault::Unread(fault)
    }
}

impl From<LoadFault> for ImageLoadFault {
    ghost from_gives = { λ f r. r ≡ Unloaded f };

    fn from(fault: LoadFault) -> ImageLoadFault {
        ImageLoadFault::Unloaded(fault)
    }
}

impl Refusal for ImageFault {
    ghost cause = { image_cause };

    ghost returned = { image_returned };

    fn number(&self) -> u32 {
        12
    }

    fn value(&self, index: usize) -> Option<usize> {
        let told = match *self {
            ImageFault::Truncated(length) | ImageFault::WrongLength(length) => length,
            ImageFault::TooManyPages => 0,
            ImageFault::TooManyNamed => 4,
            ImageFault::BadNumber(offset) => offset,
        };
        [told].get(index).copied()
    }
}

impl Refusal for LoadFault {
    ghost cause = { load_cause };

    ghost returned = { load_returned };

    fn number(&self) -> u32 {
        13
    }

    fn value(&self, index: usize) -> Option<usize> {
        let LoadFault::Sizes { reader, store } = *self;
        [reader as usize, store as usize].get(index).copied()
    }
}

impl Refusal for ImageLoadFault {
    ghost cause = { image_load_cause };

    ghost returned = { image_load_returned };

    fn number(&self) -> u32 {
        match self {
            ImageLoadFault::Unread(fault) => fault.number(),
            ImageLoadFault::Unloaded(fault) => fault.number(),
        }
    }

    fn value(&self, index: usize) -> Option<usize> {
        match self {
            ImageLoadFault::Unread(fault) => fault.value(index),
            ImageLoadFault::Unloaded(fault) => fault.value(index),
        }
    }
}
