// What the size line says.
ghost use Rattle.std.specs.Prelude.{◌≡◌};

use sheet::Sheet;

// What the lines at the front say of the sheet: it is empty, and its table has so many values.
#[derive(Clone, Copy)]
pub(crate) struct Head {
    pub sheet: Sheet,
    pub values: u32,
    ghost empty: { sheet.placed ≡ 0 },
}
