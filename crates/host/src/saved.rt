// Saved controllers: the 48 bytes read and written.
ghost use Rattle.std.specs.Prelude.{◌≡◌, [], ◌∷◌, length};
ghost use Rattle.host.specs.Saved.{saved_controller, direction_numbered, system_of, blocks_of, registers_of, flag, low, high, direction_number, saved_bytes};

use crate::SAVED_LENGTH;
use model::{Controller, Pending};
use registers::{
    Blocks, Code, Command, Cursor, CursorForm, Direction, Display, Overlay, Registers, System,
    pending_code,
};

// A direction above 3 is read as 0.
#[tactic(auto, unfolding(crate::specs::Saved::direction_numbered, registers::specs::Parameters::direction_of))]
fn direction(n: u8) -> Direction
    ensures { result ≡ direction_numbered n }
{
    match n {
        1 => Direction::Left,
        2 => Direction::Up,
        3 => Direction::Down,
        _ => Direction::Right,
    }
}

fn system(s: &[u8; SAVED_LENGTH]) -> System
    ensures { result ≡ system_of s.now }
{
    System {
        iv: s[4] == 1,
        ws: s[5] == 1,
        m2: s[6] == 1,
        m0: s[7] == 1,
        wf: s[8] == 1,
        fx: Code(s[9]),
        fy: Code(s[10]),
        cr: Code(s[11]),
        tcr: Code(s[12]),
        lf: Code(s[13]),
        ap: u16::from_le_bytes([s[14], s[15]]),
    }
}

fn blocks(s: &[u8; SAVED_LENGTH]) -> Blocks
    ensures { result ≡ blocks_of s.now }
{
    Blocks {
        sad1: u16::from_le_bytes([s[19], s[20]]),
        sl1: Code(s[21]),
        sad2: u16::from_le_bytes([s[22], s[23]]),
        sl2: Code(s[24]),
        sad3: u16::from_le_bytes([s[25], s[26]]),
        sad4: u16::from_le_bytes([s[27], s[28]]),
    }
}

fn registers(s: &[u8; SAVED_LENGTH]) -> Registers
    ensures { result ≡ registers_of s.now }
{
    Registers {
        system: system(s),
        display: Display {
            on: s[16] == 1,
            fp: s[17],
            fc: s[18],
        },
        blocks: blocks(s),
        form: CursorForm {
            crx: Code(s[29]),
            cm: s[30] == 1,
            cry: Code(s[31]),
        },
        overlay: Overlay {
            ov: s[32] == 1,
            dm2: s[33] == 1,
            dm1: s[34] == 1,
            mx: s[35],
        },
        cgram: u16::from_le_bytes([s[36], s[37]]),
        hdot: s[38],
        grey: s[39],
        cursor: Cursor {
            address: u16::from_le_bytes([s[40], s[41]]),
            direction: direction(s[42]),
        },
        asleep: s[1] == 1,
    }
}

// The controller that bytes are a saved form of, where they are one. Inlined, so that a call that needs the registers alone stores none.
#[inline(always)]
#[tactic(auto, unfolding(crate::specs::Saved::is_saved, crate::specs::Saved::controller_of))]
pub fn read(bytes: &[u8]) -> Option<Controller>
    ensures { result ≡ saved_controller bytes.now }
{
    let s = <&[u8; SAVED_LENGTH]>::try_from(bytes).ok()?;
    if s[0] != 1 {
        return None;
    }
    Some(Controller {
        registers: registers(s),
        pending: Pending {
            command: Command::try_from(s[2]).ok(),
            place: s[3],
        },
    })
}

// A field as bytes, here and in the next two: a clause each in the words of the definition, by which the check finds the 48 bytes.
fn flag(b: bool) -> u8
    ensures { result ≡ flag b }
{
    u8::from(b)
}

// The low and the high byte of a word.
fn word(w: u16) -> [u8; 2]
    ensures { result ≡ low w ∷ high w ∷ [] }
{
    w.to_le_bytes()
}

fn direction_number(direction: Direction) -> u8
    ensures { result ≡ direction_number direction }
{
    direction as u8
}

#[tactic(auto, unfolding(crate::specs::Saved::saved_bytes))]
fn saved(c: &Controller) -> [u8; SAVED_LENGTH]
    ensures { result ≡ saved_bytes c.now }
{
    let r = &c.registers;
    let s = &r.system;
    let d = &r.display;
    let b = &r.blocks;
    let f = &r.form;
    let o = &r.overlay;
    let ap = word(s.ap);
    let sad1 = word(b.sad1);
    let sad2 = word(b.sad2);
    let sad3 = word(b.sad3);
    let sad4 = word(b.sad4);
    let cgram = word(r.cgram);
    let address = word(r.cursor.address);
    [
        1,
        flag(r.asleep),
        pending_code(c.pending.command),
        c.pending.place,
        flag(s.iv),
        flag(s.ws),
        flag(s.m2),
        flag(s.m0),
        flag(s.wf),
        s.fx.0,
        s.fy.0,
        s.cr.0,
        s.tcr.0,
        s.lf.0,
        ap[0],
        ap[1],
        flag(d.on),
        d.fp,
        d.fc,
        sad1[0],
        sad1[1],
        b.sl1.0,
        sad2[0],
        sad2[1],
        b.sl2.0,
        sad3[0],
        sad3[1],
        sad4[0],
        sad4[1],
        f.crx.0,
        flag(f.cm),
        f.cry.0,
        flag(o.ov),
        flag(o.dm2),
        flag(o.dm1),
        o.mx,
        cgram[0],
        cgram[1],
        r.hdot,
        r.grey,
        address[0],
        address[1],
        direction_number(r.cursor.direction),
        0,
        0,
        0,
        0,
        0,
    ]
}

// A controller into 48 bytes: callers have them as a slice that `read`, or `granivolche_reset` itself, found to have so many.
pub fn write(c: &Controller, out: &mut [u8])
    requires { length out.old ≡ 48 }
    ensures { out.new ≡ saved_bytes c.now }
{
    out.copy_from_slice(&saved(c));
}
