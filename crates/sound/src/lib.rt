// Whether a state is sound, by the port table of its array: every process, every port and every pipe in turn.
//
// specs/, by file:
//
//   States    sound states by the rows of a port table, as the code tests them
//   Meaning   by the port table of an array they are document 01's: `sound-is`

#![tactic(auto)]

ghost use Rattle.std.specs.Prelude.{◌≡◌, ◌<◌, length};
ghost use Rattle.meaning.specs.Lists.{every, numbers};
ghost use Rattle.port_table.specs.PortsOf.{RowsFit};
ghost use Rattle.sound.specs.States.{ports_sound, process_sound, pipe_sound, state_sound};

use port_table::Size;

// Whether the ports of process p are sound.
fn sound_ports(ports: &[u32], state: &[u32], z: Size, p: usize) -> bool
    requires { (RowsFit (length state.now) ports.now z) × (p < z.processes) }
    ensures { result ≡ ports_sound ports.now state.now z.streams p }
{
    for i in 0..z.streams {
        if !sound_rows::sound_port(state, port_table::port(ports, p, i)) {
            return false;
        }
    }
    true
}

// Whether the words of process p are sound.
fn sound_process(ports: &[u32], state: &[u32], z: Size, p: usize) -> bool
    requires { (RowsFit (length state.now) ports.now z) × (p < z.processes) }
    ensures { result ≡ process_sound ports.now state.now z.streams p }
{
    sound_rows::sound_firings(state, port_table::port(ports, p, 0))
        && sound_ports(ports, state, z, p)
}

// Whether those of all processes are.
fn sound_processes(ports: &[u32], state: &[u32], z: Size) -> bool
    requires { RowsFit (length state.now) ports.now z }
    ensures { result ≡ every (process_sound ports.now state.now z.streams) (numbers z.processes) }
{
    for p in 0..z.processes {
        if !sound_process(ports, state, z, p) {
            return false;
        }
    }
    true
}

// Whether the ends of all pipes are.
fn sound_pipes(ports: &[u32], state: &[u32], z: Size) -> bool
    requires { RowsFit (length state.now) ports.now z }
    ensures { result ≡ every (pipe_sound ports.now state.now) (numbers z.pipes) }
{
    for q in 0..z.pipes {
        if !sound_rows::sound_end(state, port_table::end(ports, q)) {
            return false;
        }
    }
    true
}

// Whether the state is sound.
pub fn sound(ports: &[u32], state: &[u32], z: Size) -> bool
    requires { RowsFit (length state.now) ports.now z }
    ensures { result ≡ state_sound ports.now state.now z }
{
    sound_processes(ports, state, z) && sound_pipes(ports, state, z)
}
