// What the floors of the two trades differ in: their keys and elements, and how these are read.
ghost use Rattle.std.specs.Prelude.{◌≡◌, refl};
ghost use Rattle.forms_model.specs.Reading.{Took};
ghost use Rattle.forms_model.specs.Rules.{Rules, rules_with};
ghost use Rattle.forms_model.specs.Cutting.{cutting_rules};
ghost use Rattle.forms_model.specs.Pattern.{pattern_rules};
ghost use Rattle.forms_model.specs.ReadBack.{ReadsBack};
ghost use Rattle.forms_model.proofs.ReadBack.{size_reads_back, ticket_reads_back, piece_reads_back, order_reads_back};

use crate::cutting::{cut_ticket, size_label};
use crate::pattern::{piece_code, plot_order};
use keys::cut_ticket::CutTicket;
use keys::key::Key;
use keys::piece_code::PieceCode;
use keys::plot_order::PlotOrder;
use keys::refusal::Refusal;
use keys::size_label::{LetterSize, SizeLabel};
use keys::text::Text;
use reader::Reader;

// A trade, by the keys of its nests and the elements of its lines. A key or an element that is written as its form
// asks, but with a number out of range, is read as a refusal.
pub trait Trade {
    type Key: Key + Text;

    type Element: Copy + Text;

    ghost rules: { Rules Self.Key Self.Element };

    // a key and an element that fill the unused nodes of a floor; nothing shows them
    fn blank_key() -> Self::Key
        ensures { result ≡ rules.blank_key };

    fn blank_element() -> Self::Element
        ensures { result ≡ rules.blank_element };

    fn key(reader: &mut Reader<'_, '_>) -> Option<Result<Self::Key, Refusal>>
        ensures { Took result (rules.key_at reader.old) reader.new };

    fn element(reader: &mut Reader<'_, '_>) -> Option<Result<Self::Element, Refusal>>
        ensures { Took result (rules.element_at reader.old) reader.new };

    // the order and the texts are those of the key and the element
    ghost rules_are: { rules ≡ rules_with Self.Key.before Self.Key.Text.bytes Self.Element.Text.bytes rules };

    // what prints of a key reads back to that key, and of an element to that element
    ghost keys_back: { ReadsBack Self.Key.Text.bytes rules.key_at };

    ghost elements_back: { ReadsBack Self.Element.Text.bytes rules.element_at };
}

// Cutting floors hang size labels and queue cut tickets.
pub struct Cutting;

// Pattern floors hang piece codes and queue plot orders.
pub struct Pattern;

impl Trade for Cutting {
    type Key = SizeLabel;

    type Element = CutTicket;

    ghost rules = { cutting_rules };

    ghost rules_are = { refl };

    ghost keys_back = { size_reads_back };

    ghost elements_back = { ticket_reads_back };

    fn blank_key() -> SizeLabel {
        SizeLabel::Letter(LetterSize::Xs)
    }

    fn blank_element() -> CutTicket {
        CutTicket {
            size: Self::blank_key(),
            plies: 1,
        }
    }

    fn key(reader: &mut Reader<'_, '_>) -> Option<Result<SizeLabel, Refusal>> {
        size_label(reader)
    }

    fn element(reader: &mut Reader<'_, '_>) -> Option<Result<CutTicket, Refusal>> {
        cut_ticket(reader)
    }
}

impl Trade for Pattern {
    type Key = PieceCode;

    type Element = PlotOrder;

    ghost rules = { pattern_rules };

    ghost rules_are = { refl };

    ghost keys_back = { piece_reads_back };

    ghost elements_back = { order_reads_back };

    fn blank_key() -> PieceCode {
        PieceCode {
            letter: 'A',
            number: 1,
        }
    }

    fn blank_element() -> PlotOrder {
        PlotOrder {
            piece: Self::blank_key(),
            copies: 1,
        }
    }

    fn key(reader: &mut Reader<'_, '_>) -> Option<Result<PieceCode, Refusal>> {
        piece_code(reader)
    }

    fn element(reader: &mut Reader<'_, '_>) -> Option<Result<PlotOrder, Refusal>> {
        plot_order(reader)
    }
}
