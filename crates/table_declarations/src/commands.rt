// The command of an entity, as the table has it.
ghost use Rattle.std.specs.Prelude.{◌≡◌, ◌≤◌, length};
ghost use Rattle.output.specs.Over.{over};
ghost use Rattle.table_grammar.specs.TableWritten.{command_at};

// Command 1 with its operands, at the start of the list as far as there is room.
pub fn put_command(start: usize, name: usize, value: usize, out: &mut [u8])
    requires { (start ≤ 67108864) × (name ≤ 67108864) }
    ensures { out.new ≡ over (command_at start name value) out.old }
{
    let [s0, s1, s2, s3] = (start as u32).to_le_bytes();
    let [t0, t1, t2, t3] = ((start + name) as u32).to_le_bytes();
    let name = (name % 256) as u8;
    let low = (value % 256) as u8;
    let high = (value / 256 % 256) as u8;
    let command = [1, s0, s1, s2, s3, name, t0, t1, t2, t3, low, high];
    output::put_over(&command, out);
}
