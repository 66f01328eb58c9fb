// Lists one boot table, whose header words have the high byte first, from standard input.
#![tactic(auto)]

ghost use Rattle.std.specs.Prelude.{◌≡◌};
ghost use Rattle.words.specs.declared.ByteOrder.TheVariants.{HighFirst};

use list_input::list_input;
use std::io;
use words::ByteOrder;

fn order() -> ByteOrder
    ensures { result ≡ HighFirst }
{
    ByteOrder::HighFirst
}

fn main(rt: HostRuntime) -> io::Result<()> {
    list_input(&mut rt.stdin(), &mut rt.stdout(), order())
}
