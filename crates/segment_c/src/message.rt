//! The words for the codes.
ghost use Rattle.std.specs.Prelude.{◌≡◌};
ghost use Rattle.segment_c.specs.Messages.{code_message, version};

use image_check::ImageClass;
use seg_types::Refusal;

/// Returns the version of the library: 10000 for each major one, 100 for each minor one, and 1 for each patch.
#[unsafe(no_mangle)]
pub extern "C" fn zx_version() -> u32
    ensures { result ≡ version }
{
    900
}

/// Returns the words for a code, which stay as long as the program runs; none if it is no code.
#[unsafe(no_mangle)]
pub extern "C" fn zx_words(code: u32, message: &mut &'static [u8])
    ensures { message.new.now ≡ code_message code }
{
    *message = match code {
        0 => b"done",
        4 => Refusal::ReadOnly.message().as_bytes(),
        5 => Refusal::Exists.message().as_bytes(),
        6 => Refusal::NotFound.message().as_bytes(),
        7 => Refusal::WrongKind.message().as_bytes(),
        8 => Refusal::OutOfRange.message().as_bytes(),
        9 => Refusal::NoSpace.message().as_bytes(),
        10 => b"nothing is there",
        16 => b"the handle is closed",
        17 => b"no such key",
        18 => b"no name",
        19 => b"no such kind",
        20 => b"no such value",
        21 => b"no such count",
        22 => b"no such size",
        23 => b"no such mode",
        24 => b"the buffer is too short",
        25 => b"a slice is null",
        26 => b"out of memory",
        27 => b"region too small",
        28 => b"growth is no multiple of 16 from 32 on",
        29 => b"too large",
        101 => ImageClass::Truncated.message().as_bytes(),
        102 => ImageClass::BadMagic.message().as_bytes(),
        103 => ImageClass::UnsupportedVersion.message().as_bytes(),
        104 => ImageClass::BadSize.message().as_bytes(),
        105 => ImageClass::BadReserved.message().as_bytes(),
        106 => ImageClass::BadTag.message().as_bytes(),
        107 => ImageClass::BadFreeTree.message().as_bytes(),
        108 => ImageClass::BadIndex.message().as_bytes(),
        109 => ImageClass::BadObject.message().as_bytes(),
        110 => ImageClass::SharedBlock.message().as_bytes(),
        111 => ImageClass::BadContainer.message().as_bytes(),
        112 => ImageClass::OrphanBlock.message().as_bytes(),
        _ => b"",
    };
}
