//! What holds of the definitions.

ghost use Rattle.footer.specs.Laws.{
  FilesMeanOneList,
  FirstRowsAreOneList,
  FirstRowsAreOfTheFile,
  FilesHaveFirstRows,
  FirstRowsAreEnough,
  FilesHaveDictionaries,
};

use metadata::one_footer;
use row_group::one_meaning;
use schema::a_list_means_one_schema;

/// The bytes of a file mean at most one list of rows, of at most one schema: also where nobody has read
/// them.
pub fn one_list_of_rows()
    ensures { FilesMeanOneList }
{
    one_footer();
    a_list_means_one_schema();
    one_meaning();
}

/// The first rows of a file are one list, also where nobody has read them: `count` rows or more, or all of the file. Where the
/// whole file means rows, they begin with the first `count` of these.
pub fn one_list_of_first_rows()
    ensures one { FirstRowsAreOneList }
    ensures of_the_file { FirstRowsAreOfTheFile }
    ensures exist { FilesHaveFirstRows }
    ensures enough { FirstRowsAreEnough }
{
    one_footer();
    a_list_means_one_schema();
    one_meaning();
}

/// In a file as the store lays it out, each chunk has a dictionary whose style asks for one and whose entries suit it. A
/// chunk has none at offset 0, where no file has one: before the first chunk there is `PAR1`.
pub fn chunks_have_the_dictionaries_asked_for()
    ensures { FilesHaveDictionaries }
{}
