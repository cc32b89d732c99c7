// Addresses in words.
ghost use Rattle.std.specs.Prelude.{◌≡◌, min, length};

use options::arguments::Address;
use options::lists::List;
use wording::block::Block;

// The numbers of a list.
pub fn indexes(list: &List) -> &[usize]
    ensures { length result.now ≡ min list.now.count 9 }
{
    &list.numbers[..list.count.min(9)]
}

// An address, as the command line takes it. No leaf is row 0, which is the outermost value's: it is shown as if none were given.
pub fn shown(address: &Address, out: &mut Block) {
    write!(out, "{}", address.row);
    if let Some(leaf) = address.leaf {
        if leaf != 0 {
            write!(out, ",{leaf}");
        }
    }
    for (j, index) in indexes(&address.indexes).iter().enumerate() {
        out.byte(if j == 0 { b' ' } else { b',' });
        write!(out, "{index}");
    }
}
