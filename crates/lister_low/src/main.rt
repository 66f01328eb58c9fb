// Lists one boot table, whose header words have the low byte first, from standard input.
#![tactic(auto)]

ghost use Rattle.std.specs.Prelude.{◌≡◌};
ghost use Rattle.words.specs.declared.ByteOrder.TheVariants.{LowFirst};

use list_input::list_input;
use std::io;
use words::ByteOrder;

fn order() -> ByteOrder
    ensures { result ≡ LowFirst }
{
    ByteOrder::LowFirst
}

fn main(rt: HostRuntime) -> io::Result<()> {
    list_input(&mut rt.stdin(), &mut rt.stdout(), order())
}
