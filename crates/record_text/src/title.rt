// The lines of titles.
ghost use Rattle.std.specs.Prelude.{◌≡◌};
ghost use Rattle.record_text.specs.Told.{title_text};

// A title line: the one over the size, the one over the depths, or the one over the records.
#[derive(Clone, Copy)]
pub enum Title {
    Size,
    Depth,
    Record,
}

impl Title {
    // Its bytes.
    #[tactic(auto, unfolding(crate::specs::Line::size_title, crate::specs::Line::depth_title, crate::specs::Line::record_title))]
    pub fn bytes(self) -> &'static [u8]
        ensures { result.now ≡ title_text self }
    {
        match self {
            Title::Size => b"size width height values\n",
            Title::Depth => b"depth\n",
            Title::Record => b"kind entry off0 off1\n",
        }
    }
}
