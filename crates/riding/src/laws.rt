//! What a riding layer does to any book, as theorems.
ghost use Rattle.riding.specs.Laws.{LayersAdd, LayersLawful};

/// Over any book, and so at any depth: a layer adds the seat's path and followers, one level, and a doubled scale, or over a scale
/// above 4 nothing but scale 9; and over a lawful book it is lawful.
pub fn layers_stand() -> u8
    ensures add { LayersAdd }
    ensures lawful { LayersLawful }
{
    0
}
