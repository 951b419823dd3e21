//! Laws of the tiles in the tags. Each law is the contract of a function that does nothing.

ghost use Rattle.block_tags.specs.Laws.{PrefixIsAWindow, GoodTagsSayTiles, HeaderIsBesideTags, HeaderMayChange};
ghost use Rattle.block_tags.specs.Laws.{LastTileEndsList, OneTileAtAnOffset, PayloadIsBesideTags, PayloadMayChange};
ghost use Rattle.block_tags.specs.Laws.{TagsThatStaySayTheSame, TileIsReadOff, TileStandsInList, TilesAreReadOff};
ghost use Rattle.block_tags.specs.Laws.{TilesFillTheWindow};
ghost use Rattle.block_tags.specs.Tiles.{SayOneList};
ghost use Rattle.block_tags.specs.Worked.{WorkedTiles};

/// States that the tags of a segment describe exactly one list of tiles.
pub fn tags_say_one_list()
    ensures { SayOneList }
{}

/// States that a walk over the tags from the header on finds exactly the tiles that the tags describe.
pub fn tiles_are_read_off()
    ensures { TilesAreReadOff }
{}

/// States that each tile of the tags can be read from its own tag.
pub fn tile_is_read_off()
    ensures { TileIsReadOff }
{}

/// States that tags pass their check exactly if they describe tiles and no two free tiles are neighbours.
pub fn good_tags_say_tiles()
    ensures { GoodTagsSayTiles }
{}

/// States that the tiles fill a window from its header to its end tag, one after the other.
pub fn tiles_fill_the_window()
    ensures { TilesFillTheWindow }
{}

/// States that no tag lies in the header.
pub fn header_is_beside_tags()
    ensures { HeaderIsBesideTags }
{}

/// States that no tag lies in the payload of a tile.
pub fn payload_is_beside_tags()
    ensures { PayloadIsBesideTags }
{}

/// States that the tile at an offset splits the list into the tiles before it and the tiles after it.
pub fn tile_stands_in_list()
    ensures { TileStandsInList }
{}

/// States that a search for the offset of a tile finds this tile.
pub fn one_tile_at_an_offset()
    ensures { OneTileAtAnOffset }
{}

/// States that a list consists of the tiles before its last tile, and the last tile.
pub fn last_tile_ends_list()
    ensures { LastTileEndsList }
{}

/// States that equal tags describe equal tiles.
pub fn tags_that_stay_say_the_same()
    ensures { TagsThatStaySayTheSame }
{}

/// States that a change of bytes in a payload keeps the tiles.
pub fn payload_may_change()
    ensures { PayloadMayChange }
{}

/// States that a change of bytes in the header keeps the tiles.
pub fn header_may_change()
    ensures { HeaderMayChange }
{}

/// States that a prefix of a window describes the same tiles as a window of only these bytes.
pub fn prefix_is_a_window()
    ensures { PrefixIsAWindow }
{}

/// States examples of the definitions: legal sizes, the words of tags, and the tiles of one window.
pub fn worked_tiles()
    ensures { WorkedTiles }
{}
