// The header helpers: of bytes that begin with a header, without a block. Refused by 16 under 24 bytes, which leaves all.
ghost use Rattle.wire.specs.Header.{conv_of, sn_of};
ghost use Rattle.wire.specs.Helpers.{Got, ConvSet};

use wire::ShortHeader;

// The conversation of the header.
pub fn get_conv(buf: &[u8]) -> Result<u32, ShortHeader>
    ensures { Got conv_of buf.now result }
{
    wire::get_conv(buf)
}

// Sets it, and leaves every byte past it.
pub fn set_conv(buf: &mut [u8], conv: u32) -> Result<(), ShortHeader>
    ensures { ConvSet buf.old conv result buf.new }
{
    wire::set_conv(buf, conv)
}

// The number of the segment whose header it is.
pub fn get_sn(buf: &[u8]) -> Result<u32, ShortHeader>
    ensures { Got sn_of buf.now result }
{
    wire::get_sn(buf)
}
