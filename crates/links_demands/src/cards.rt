// Cards of the links, as one statement over their list (`links`, specs/Cards): runs from the local or the connected
// links, with the values said, the bytes that each receiver gets, and the table and sequences behind them written out.
ghost use Rattle.links.specs.Cards.{EachHolds, link_cards};

// Every card of the list holds.
pub fn the_link_cards_hold()
    ensures { EachHolds link_cards }
{}
