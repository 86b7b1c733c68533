//! Words of texts that are full of characters between letters: half-width katakana, frames, quotation marks, dashes,
//! and single characters of one script among words of another.

/// Names and words in half-width katakana, as bank statements and old forms have them.
pub(crate) static HALF_WIDTH: &str =
    "ﾌﾘｺﾐ\nｶﾌﾞｼｷｶﾞｲｼｬ\nﾔﾏﾀﾞ\nﾀﾛｳ\nﾊﾅｺ\nﾄｳｷｮｳﾄ\nﾐﾅﾄｸ\nｵｵｻｶﾌ\nﾃﾞﾝﾜ\nｼﾞｭｳｼｮ\nﾅﾏｴ\nｷﾝｶﾞｸ\nﾋﾂﾞｹ\n\
    ｺｳｻﾞ\nﾌﾂｳ\nｼﾃﾝ\nﾕｳﾋﾞﾝ\nﾃﾞｰﾀ\nﾌｧｲﾙ\nﾃｷｽﾄ";

/// Six half-width characters, and then six of others.
pub(crate) static HALF_AND_FULL: &str =
    "ﾌｧｲﾙﾒｲ図書館の目録\nﾃﾞｰﾀﾉｴ日本語の文字\nﾄｳｷｮｳﾄ東京都の住所\nｶﾅﾓｼﾞｦ漢字と仮名を\nｼﾞｭｳｼｮ手紙の宛先は\n\
    ﾕｳﾋﾞﾝﾉ郵便番号の表\nｷﾝｶﾞｸﾊ金額と日付を\nﾍﾝｶﾝｽﾙ変換すること";

/// Pieces of frames and bars, as the texts of terminals have them.
pub(crate) static FRAMES: &str =
    "║\n═════════\n╔═══╦═══╗\n╠═══╬═══╣\n╚═══╩═══╝\n│\n─────────\n┌───┬───┐\n├───┼───┤\n└───┴───┘\n░░▒▒▓▓██\n\
    █▌\n▐█\n▀▀▀▄▄▄";

/// German words in quotation marks and between dashes.
pub(crate) static QUOTED: &str =
    "„Wort“\n–\n„und“\n‚halb‘\nder\n„Archiv“\n…\ndie\n„Seite\nzwei“\n€\nBuch\n—\nBrief\n„Ende“ –\nes\ngeht’s\n\
    Band…\n5 €\n„ja“";

/// Quotation marks, dashes, dots and a currency alone.
pub(crate) static MARKS: &str = "“\n”\n–\n„\n…\n€\n—\n’\n‚\n‘\n„…“\n–…–";

/// Single kana and kanji among words of ASCII.
pub(crate) static SPARSE: &str =
    "file の\nXML を\npage 頁\nLinux で\n12 年\n3 月\n28 日\nA の B\nlist に\nvalue は 5\nkey が\nx を y に\nend 。\n\
    table 表\nrow 行\nNo. 7 号";

/// Short Japanese words among words of ASCII.
pub(crate) static SHORT: &str =
    "漢字 abc\nの Linux\nファイル を\nUTF-8 で\n文字 code\n日本語 text\n変換 to\nする from\n一覧 list\n表示 of\nHTML の\n\
    本文 body";

/// Pictures among words of ASCII.
pub(crate) static PICTURES: &str =
    "thanks 🙂\nsee you 👋\n🎉🎉\nok 👍\nthe\nletter\nof 📚\narchive\n✅ done\n☃\nold 📜 text\nyes";
