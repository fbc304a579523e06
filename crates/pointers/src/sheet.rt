// The bytes of a layout, read and written.
ghost use Rattle.std.specs.Prelude.{◌≡◌, ◌+◌, ◌≤◌, ◌++◌, ◌&&◌, length, take, drop};
ghost use Rattle.pointers.specs.Places.{first_track};
ghost use Rattle.pointers.specs.Rules.{layout_valid};
ghost use Rattle.pointers.specs.Sheets.{head, layout_in, marked, sheet_of};

use crate::layout::Layout;
use format::{BLOCK_BYTES, Sheet};
use medium::{four_at, two_at};

// Where the numbers of a layout stand, and the fixed bytes between them.
const GROUPS: usize = 4;

const HOMES: usize = 6;

const SPARES: usize = 10;

const GAP: usize = 14;

const START: usize = 30;

const SECONDARY: usize = 34;

const FILLER: u8 = 0xFF;

const FILLED_GAP: [u8; 16] = [FILLER; 16];

// The first bytes of every sheet, of which one tells where the data zone begins.
fn head(first_track: u8) -> [u8; 4]
    ensures { result ≡ head first_track }
{
    [0x0A, 0x0A, first_track, 0x10]
}

// Whether the bytes are there that every sheet has.
#[tactic(auto, unfolding(crate::specs::Sheets::marked))]
fn is_marked(sheet: &Sheet, first_track: u8) -> bool
    ensures { result ≡ marked first_track sheet.now }
{
    sheet[..GROUPS] == head(first_track)[..] && sheet[GAP..START] == FILLED_GAP[..]
}

// Writes a field of the sheet.
fn put(sheet: &mut [u8], at: usize, field: &[u8])
    requires { at + length field.now ≤ length sheet.old }
    ensures { sheet.new ≡ take at sheet.old ++ (field.now ++ drop (at + length field.now) sheet.old) }
{
    sheet[at..at + field.len()].copy_from_slice(field);
}

impl Layout {
    // The layout that the bytes of a sheet give.
    pub(crate) fn in_sheet(sheet: &Sheet) -> Layout
        ensures { result ≡ layout_in sheet.now }
    {
        Layout {
            groups: u32::from(two_at(sheet, GROUPS)),
            homes: four_at(sheet, HOMES),
            spares: four_at(sheet, SPARES),
            start: four_at(sheet, START),
            secondary: four_at(sheet, SECONDARY),
        }
    }

    // Whether the layout, which the sheet gave, keeps the rules, and the bytes around it are as in every sheet.
    pub(crate) fn stands(&self, last: u32, sheet: &Sheet) -> bool
        requires { last ≤ 19999 }
        ensures { result ≡ (layout_valid last self.now && marked (first_track self.now) sheet.now) }
    {
        self.is_valid(last) && is_marked(sheet, self.first_track() as u8)
    }

    // The sheet that gives the layout.
    pub(crate) fn to_sheet(&self) -> Sheet
        requires { (self.now.groups ≤ 65535) × (first_track self.now ≤ 255) }
        ensures { result ≡ sheet_of self.now }
    {
        let mut sheet = [FILLER; BLOCK_BYTES];
        put(&mut sheet, 0, &head(self.first_track() as u8));
        put(&mut sheet, GROUPS, &(self.groups as u16).to_be_bytes());
        put(&mut sheet, HOMES, &self.homes.to_be_bytes());
        put(&mut sheet, SPARES, &self.spares.to_be_bytes());
        put(&mut sheet, START, &self.start.to_be_bytes());
        put(&mut sheet, SECONDARY, &self.secondary.to_be_bytes());
        sheet
    }
}
